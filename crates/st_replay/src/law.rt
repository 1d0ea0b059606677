ghost use Rattle.std.specs.Prelude.{◌≡◌, ◌↔◌, List, [], ◌∷◌, ◌++◌, Some};
ghost use Rattle.st_trace.specs.declared.entry.Entry.{Entry};
ghost use Rattle.st_law.specs.declared.input.Input.{Input};
ghost use Rattle.st_law.specs.Inputs.{IsStartable};
ghost use Rattle.st_law.specs.Numbers.{IsLawfulByNumber};
ghost use Rattle.st_replay.specs.Told.{entry_told, with_entry, IsLawfulSoFar, TraceSoFar};

/// After a lawful trace an entry is lawful exactly where the machine adds it for the choice that it tells.
pub fn an_entry_is_lawful_where_its_choice_adds_it()
    ensures { (so_far : TraceSoFar) → IsStartable so_far.input → IsLawfulSoFar so_far → (e : Entry) → IsLawfulSoFar (with_entry so_far e) ↔ (entry_told so_far e ≡ Some e) }
{}

/// A trace is lawful exactly where the machine adds each of its entries, after those before it, for the choice that the entry tells.
pub fn a_trace_is_lawful_where_each_choice_adds_its_entry()
    ensures { (input : Input) → IsStartable input → (trace : List Entry) → IsLawfulByNumber input trace ↔ ((front rest : List Entry) (e : Entry) → trace ≡ front ++ e ∷ rest → entry_told (record { input = input; trace = front }) e ≡ Some e) }
{}

/// Every prefix of a lawful trace is lawful.
pub fn every_prefix_of_a_trace_is_lawful()
    ensures { (input : Input) → IsStartable input → (front rest : List Entry) → IsLawfulByNumber input (front ++ rest) → IsLawfulByNumber input front }
{}
