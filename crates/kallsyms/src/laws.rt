// Theorems about the definitions that the contracts of this crate cite: each function's contract is one.
ghost use Rattle.kallsyms.specs.Laws.{TextsHaveOneMeaning, WrittenLinesAreRead, ReturnedLinesAreRead, LinesHaveOneListOfFields, FieldsAreParts, WordsAreFields, AddressCases};

/// Every text has one meaning: the lines and the end that its source has.
#[tactic(auto, using(crate::proofs::Meant::one_meaning))]
pub fn texts_have_one_meaning()
    ensures { TextsHaveOneMeaning }
{}

/// A text of good lines, each with a line feed after it, means exactly those lines and ends clean.
#[tactic(auto, using(crate::proofs::Meant::written_read))]
pub fn written_lines_are_read()
    ensures { WrittenLinesAreRead }
{}

/// So does a text of good lines with a carriage return and a line feed after each.
// A law of its own: unlike the one before, it lets a line end with a carriage return.
#[tactic(auto, using(crate::proofs::Meant::returned_read))]
pub fn returned_lines_are_read()
    ensures { ReturnedLinesAreRead }
{}

/// Every line has one list of fields: those that are found in it.
pub fn lines_have_one_list_of_fields()
    ensures { LinesHaveOneListOfFields }
{}

/// A field is a part of its line at its place, not empty and without separators.
pub fn fields_are_parts()
    ensures { FieldsAreParts }
{}

/// Three words with a separator between two of them are the three fields of the line.
#[tactic(auto, using(crate::proofs::FieldLaws::words_fields))]
pub fn words_are_fields()
    ensures { WordsAreFields }
{}

/// Worked addresses.
pub fn address_cases()
    ensures { AddressCases }
{}
