// What a command line asks.
ghost use Rattle.std.specs.Prelude.{◌≡◌, ◌<◌, ◌≤◌, length, drop, string_bytes, MatchOption, slice_get};
ghost use Rattle.std.specs.Option.{option_map};

/// A list, by its path, and the names to look up in it.
#[derive(Clone, Copy)]
pub struct Request<'a> {
    /// The path of the list.
    pub list: &'a str,
    /// The names, at least one.
    pub names: &'a [String],
}

impl<'a> Request<'a> {
    /// The words of a command line, the program's own name first; none if a list or a name is missing.
    pub fn of(words: &'a [String]) -> Option<Request<'a>>
        ensures { MatchOption result (length words.now < 3) (λ q. (3 ≤ length words.now) × (option_map string_bytes (slice_get words.now 1) ≡ Some q.list.now) × (q.names.now ≡ drop 2 words.now)) }
    {
        // `bench` takes its words apart likewise: a crate for two programs would be no plainer.
        match words {
            [_, list, names @ ..] if !names.is_empty() => Some(Request {
                list: list.as_str(),
                names,
            }),
            _ => None,
        }
    }
}
