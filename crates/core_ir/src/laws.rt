//! Laws of facts with one more.

ghost use Rattle.std.specs.Prelude.{◌≡◌, ◌⊎◌, List, [], All, Contains, fold};
ghost use Rattle.core_ir.specs.PointFacts.{AreInOrder, put};
ghost use Rattle.core_ir.specs.declared.facts.SlotFact.{SlotFact};

/// Facts with one more list nothing but that one and what they listed: what holds of all of these holds of
/// all that they list.
pub fn put_keeps()
    ensures { (facts : List SlotFact) (fact : SlotFact)
        → All (λ listed. (listed ≡ fact) ⊎ Contains facts listed) (put facts fact) }
{}

/// Facts in order are in order with one more.
pub fn put_keeps_order()
    ensures { (facts : List SlotFact) (fact : SlotFact) → AreInOrder facts → AreInOrder (put facts fact) }
{}

/// Facts in order that are put one after another are listed as they come.
pub fn put_lists_in_order()
    ensures { (facts : List SlotFact) → AreInOrder facts → fold put [] facts ≡ facts }
{}
