// Theorems about the definitions: each function's contract is one.
ghost use Rattle.model.specs.Laws.{GrantedExactlyWhen, StaysWellFormed, AddressStands, NamesFindTheirExtern, WeakForStrong};
ghost use Rattle.model.specs.StepLaws.{CollectedIsTested, CollectionCollects, RefusedChangesNothing, FixupTwiceIsOnce, FixupLeavesOtherRows, RelocationLeavesOtherSlots, RoomSuffices};
ghost use Rattle.model.specs.TableLaws.{TablesAreTested};
ghost use Rattle.model.specs.ReadLaws.{LinesAreRead};
ghost use Rattle.model.specs.CollectLaws.{CollectedExactlyWhen};
ghost use Rattle.model.specs.NameLaws.{RowsKeepTheirNames, NamesEndAtZero, EssentialNames, ChainsEnd, LookupsFindTheFirst};
ghost use Rattle.model.specs.SlotLaws.{SlotsAreBytes, RegistersAreApart, Opcodes, BitsAreKept, LoadsHoldTheirValue, CallsHoldTheirId, PoisonWraps, NewRowsMean};
ghost use Rattle.model.specs.Cases.{WorkedCases};

/// Whatever was called before it, a resolution is granted exactly if the typed condition and the line condition hold.
pub fn granted_exactly_when()
    ensures { GrantedExactlyWhen }
{}

/// A collected object stays well-formed under every call, so that no call is refused for it.
#[tactic(auto, using(crate::proofs::Whole::stays_well_formed))]
pub fn stays_well_formed()
    ensures { StaysWellFormed }
{}

/// A nonzero address that a resolution gave is the only one in its lines, stands after every later call, and is loaded after every later granted relocation.
pub fn address_stands()
    ensures { AddressStands }
{}

/// Each extern of a collected object is the one that its name finds.
#[tactic(auto, using(crate::proofs::Whole::names_find_their_extern))]
pub fn names_find_their_extern()
    ensures { NamesFindTheirExtern }
{}

/// With some symbols declared weak, collection is granted alike, and where every call is granted, every one is, and the ends are equal.
#[tactic(auto, using(crate::proofs::Weak::weak_for_strong))]
pub fn weak_for_strong()
    ensures { WeakForStrong }
{}

/// The tests of the tables say exactly that they are well-formed.
#[tactic(auto, using(crate::proofs::TablesTested::tables_are_tested))]
pub fn tables_are_tested()
    ensures { TablesAreTested }
{}

/// The test of an object with externs says exactly that it is as collection leaves it.
#[tactic(auto, using(crate::proofs::Tested::collected_is_tested))]
pub fn collected_is_tested()
    ensures { CollectedIsTested }
{}

/// A collection is granted exactly if the tables are well-formed and each entry of the section declares an extern, and makes these externs.
#[tactic(auto, using(crate::proofs::CollectedWhen::collected_exactly_when))]
pub fn collected_exactly_when()
    ensures { CollectedExactlyWhen }
{}

/// A granted collection makes a well-formed object.
#[tactic(auto, using(crate::proofs::Collects::collection_collects))]
pub fn collection_collects()
    ensures { CollectionCollects }
{}

/// A resolution reads every line, none, or those up to the first that is refused, and is refused for that line.
#[tactic(auto, using(crate::proofs::ReadUpTo::lines_are_read))]
pub fn lines_are_read()
    ensures { LinesAreRead }
{}

/// A refused collection, resolution or fixup changes nothing.
#[tactic(auto, using(crate::proofs::Left::refused_changes_nothing))]
pub fn refused_changes_nothing()
    ensures { RefusedChangesNothing }
{}

/// A second fixup changes nothing more.
#[tactic(auto, using(crate::proofs::Whole::fixup_twice_is_once))]
pub fn fixup_twice_is_once()
    ensures { FixupTwiceIsOnce }
{}

/// Fixup leaves every row that is neither the section nor of one of its entries.
pub fn fixup_leaves_other_rows()
    ensures { FixupLeavesOtherRows }
{}

/// Relocation leaves every slot that no relocation touches, also on a refusal.
#[tactic(auto, using(crate::proofs::Left::relocation_leaves_other_slots))]
pub fn relocation_leaves_other_slots()
    ensures { RelocationLeavesOtherSlots }
{}

/// Room for one type row and the name of an int is all that a collected object ever needs.
pub fn room_suffices()
    ensures { RoomSuffices }
{}

/// A name reads exactly if a zero byte follows it.
pub fn names_end_at_zero()
    ensures { NamesEndAtZero }
{}

/// The essential name is the part before the first three underscores.
#[tactic(auto, using(crate::proofs::Named::essential_names))]
pub fn essential_names()
    ensures { EssentialNames }
{}

/// The name of an extern has the place that its row has.
pub fn rows_keep_their_names()
    ensures { RowsKeepTheirNames }
{}

/// A chain of types ends in the first row that passes on to none, if fewer than 32 rows lead there.
#[tactic(auto, using(crate::proofs::Named::chains_end))]
pub fn chains_end()
    ensures { ChainsEnd }
{}

/// A lookup finds the first row that has the key.
#[tactic(auto, using(crate::proofs::Named::lookups_find_the_first))]
pub fn lookups_find_the_first()
    ensures { LookupsFindTheFirst }
{}

/// Slots are written as bytes and read back, and bytes are read as slots and written back.
#[tactic(auto, using(crate::proofs::Slotted::slots_are_bytes))]
pub fn slots_are_bytes()
    ensures { SlotsAreBytes }
{}

/// Setting one register of a slot keeps the other.
pub fn registers_are_apart()
    ensures { RegistersAreApart }
{}

/// The opcodes of a 64-bit load and of a call.
pub fn opcodes()
    ensures { Opcodes }
{}

/// Numbers of 32 bits go into an immediate bit for bit.
pub fn bits_are_kept()
    ensures { BitsAreKept }
{}

/// For every address, the pair of slots that a load of it gets loads that address.
pub fn loads_hold_their_value()
    ensures { LoadsHoldTheirValue }
{}

/// A call with an id calls the kernel function of that id.
pub fn calls_hold_their_id()
    ensures { CallsHoldTheirId }
{}

/// The immediate of a weak call wraps in 32 signed bits.
#[tactic(auto, using(crate::proofs::Slotted::poison_wraps))]
pub fn poison_wraps()
    ensures { PoisonWraps }
{}

/// The rows that collection and fixup make mean what the BTF documentation says.
pub fn new_rows_mean()
    ensures { NewRowsMean }
{}

/// Worked cases of every call, by computing.
#[tactic(auto, using(crate::proofs::Cased::worked_cases))]
pub fn worked_cases()
    ensures { WorkedCases }
{}
