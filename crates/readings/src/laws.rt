//! What descents find, combinator by combinator.

ghost use Rattle.std.specs.Prelude.{◌≡◌, ◌<◌, ℕ, suc, ◌++◌, Bool, true, List, [], ◌∷◌, Option, Some, None, length, take, drop};
ghost use Rattle.readings.specs.Readings.{Reading, Rule, Test, next, nothing, either, token, ◌▹◌, ◌∣◌, make, maybe, many, chain, once, longest, longest_of, whole, where_next, prefer, exactly, before, only, inside, within, levels, elements, items};
ghost use Rattle.readings.specs.Descent.{Descent, take_token, ◌▸◌, ◌⊘◌, take_make, take_maybe, take_many, take_chain, take_once, complete, take_where, take_before, take_only, take_inside, take_within, take_levels, bind, climb, take_elements, take_items, all_items};
ghost use Rattle.readings.specs.Leading.{Apart, Within, Parses, Sole};
ghost use Rattle.readings.specs.Choices.{Wins, Overtakes, Silent};
ghost use Rattle.readings.specs.Leading.{Starts};
ghost use Rattle.readings.specs.Falls.{Falls};
ghost use Rattle.readings.specs.Repetition.{Offers};
ghost use Rattle.readings.specs.Commits.{reaches};
ghost use Rattle.readings.specs.Elements.{preceded};
ghost use Rattle.readings.specs.Parsers.{Parser, Single, Total};

/// A descent that parses a rule finds the first of its longest readings, and, if that leaves no
/// token, the first of those that leave none.
pub fn longest_laws<T, A>()
    ensures longest { (p : Parser T A) (ts : List T) → longest (p.rule ts) ≡ p.descent ts }
    ensures whole { (p : Parser T A) (ts : List T) → whole (p.rule ts) ≡ complete (p.descent ts) }
    ensures falls { (p : Parser T A) → Falls p.descent }
{}

/// Tokens one after another, where what stops the first never begins the second.
pub fn sequence_laws<T, A, B>()
    ensures one_token { (test : T → Bool) → Parses nothing (next test) (token test) (take_token test) }
    ensures made { (p : Parser T A) (of : List T → A → B) → Parses p.stops p.begins (make of p.rule) (take_make of p.descent) }
    ensures sequence { (p : Parser T A) (q : Parser T B) → Apart p.stops q.begins
        → Parses q.stops p.begins (p.rule ▹ q.rule) (p.descent ▸ q.descent) }
    ensures last { (p : Parser T A) (q : Total T B) → Apart p.stops q.begins
        → Parses (either p.stops q.stops) p.begins (p.rule ▹ q.rule) (p.descent ▸ q.descent) }
    ensures offered { (p : Total T A) (q : Parser T B) → Apart p.stops q.begins
        → Parses q.stops (either p.begins q.begins) (p.rule ▹ q.rule) (p.descent ▸ q.descent) }
    ensures both_offered { (p : Total T A) (q : Total T B) → Apart p.stops q.begins
        → Offers (either p.stops q.stops) (either p.begins q.begins) (p.idle, q.idle) (p.rule ▹ q.rule) (p.descent ▸ q.descent) }
    ensures weaker { (p : Parser T A) (stops begins : Test T) → Within p.stops stops → Within p.begins begins → Parses stops begins p.rule p.descent }
{}

/// One alternative or another: told apart by the next tokens, by a test that is part of the rule, by
/// whether one can be read at all, or because what one reads is never longer than the other's.
pub fn choice_laws<T, A>()
    ensures switch { (p q : Parser T A) → Apart p.begins q.begins
        → Parses (either p.stops q.stops) (either p.begins q.begins) (p.rule ∣ q.rule) (take_where p.begins p.descent q.descent) }
    ensures by { (c : Test T) (p q : Parser T A) → Starts c p.rule → Silent c q.rule
        → Parses (either p.stops q.stops) (either p.begins q.begins) (p.rule ∣ q.rule) (take_where c p.descent q.descent) }
    ensures tested { (c : Test T) (p q : Parser T A)
        → Parses (either p.stops q.stops) (either p.begins q.begins) (where_next c p.rule q.rule) (take_where c p.descent q.descent) }
    ensures preferred { (p q : Parser T A)
        → Parses (either p.stops q.stops) (either p.begins q.begins) (prefer p.rule q.rule) (p.descent ⊘ q.descent) }
    ensures first { (p q : Parser T A) → Wins q.stops p.descent q.rule
        → Parses (either p.stops q.stops) (either p.begins q.begins) (p.rule ∣ q.rule) (p.descent ⊘ q.descent) }
    ensures second { (p q : Parser T A) → Overtakes p.stops q.descent p.rule
        → Parses (either p.stops q.stops) (either p.begins q.begins) (p.rule ∣ q.rule) (q.descent ⊘ p.descent) }
{}

/// What has no other reading: the longest alone, what is read before some tokens or with some values,
/// and what stands in a group.
pub fn single_laws<T, A>()
    ensures longest { (p : Parser T A) → Sole p.begins (longest_of p.rule) p.descent }
    ensures before_some { (p : Single T A) (c : Test T) → Sole p.begins (before c p.rule) (take_before c p.descent) }
    ensures valued { (p : Single T A) (c : A → Bool) → Sole p.begins (only c p.rule) (take_only c p.descent) }
    ensures group { (opens : T → Bool) (width past : T → ℕ) (p : Parser T A)
        → Sole (next opens) (inside opens width past p.rule) (take_inside opens width past p.descent) }
    ensures parses { (p : Single T A) → Parses nothing p.begins p.rule p.descent }
{}

/// What may be left out, and what is repeated: more is read before less.
pub fn repetition_laws<T, A, B>()
    ensures optional { (p : Parser T A) → Offers (either p.stops p.begins) p.begins None (maybe p.rule) (take_maybe p.descent) }
    ensures exact { (p : Parser T A) → Offers p.stops p.begins None (exactly p.rule) (take_maybe p.descent) }
    ensures repeated { (p : Parser T A) → Apart p.stops p.begins → Offers (either p.stops p.begins) p.begins [] (many p.rule) (take_many p.descent) }
    ensures left_nested { (most : A → List T → ℕ) (room : A → Bool) (join : List T → A → B → A) (p : Single T A) (q : Single T B)
        → Parses q.begins p.begins (chain most room join p.rule q.rule) (take_chain most room join p.descent q.descent) }
    ensures one_side { (room : A → Bool) (join : List T → A → B → A) (p : Single T A) (q : Single T B)
        → Sole p.begins (once room join p.rule q.rule) (take_once room join p.descent q.descent) }
{}

/// Levels of operators over one table: the first operand is read once, and the levels are climbed
/// behind it.
pub fn level_laws<T, A, B, R>()
    ensures single { (most : R → A → List T → ℕ) (room : A → Bool) (join : List T → A → B → A) (right : R → List R → Parser T B) (p : Single T A) (rs : List R)
        → Sole p.begins (levels most room join (λ r above. (right r above).rule) p.rule rs)
        (take_levels most room join (λ r above. (right r above).descent) p.descent rs) }
    ensures climbed { (most : R → A → List T → ℕ) (room : A → Bool) (join : List T → A → B → A) (right : R → List R → Descent T B) (g : Descent T A) (rs : List R)
        (ts : List T) → take_levels most room join right g rs ts ≡ bind (g ts) (climb most room join right ts rs) }
{}

/// Elements with commas between them and maybe one behind the last, and what a loop keeps that reads
/// them: the elements done, then those of the rest, are all.
pub fn element_laws<T, A>()
    ensures elements { (p : Parser T A) (comma : T → Bool) → Apart p.stops (next comma)
        → Offers (either p.stops (either p.begins (next comma))) p.begins [] (elements p.rule (token comma)) (take_elements p.descent (take_token comma)) }
    ensures begins { (all : Option (Reading T (List A))) → all ≡ preceded [] all }
    ensures goes_on { (g : Descent T A) (comma : Descent T T) → Falls g → Falls comma → (all : Option (Reading T (List A))) (done : List A) (ts : List T)
        (x : Reading T A) (y : Reading T T) → all ≡ preceded done (take_elements g comma ts) → g ts ≡ Some x → comma x.1 ≡ Some y
        → all ≡ preceded (done ++ x.0 ∷ []) (take_elements g comma y.1) }
    ensures last { (g : Descent T A) (comma : Descent T T) → Falls g → Falls comma → (all : Option (Reading T (List A))) (done : List A) (ts : List T)
        (x : Reading T A) → all ≡ preceded done (take_elements g comma ts) → g ts ≡ Some x → comma x.1 ≡ None → all ≡ Some (done ++ x.0 ∷ [], x.1) }
    ensures stops { (g : Descent T A) (comma : Descent T T) (all : Option (Reading T (List A))) (done : List A) (ts : List T)
        → all ≡ preceded done (take_elements g comma ts) → g ts ≡ None → all ≡ Some (done, ts) }
{}

/// A list of items with errors among them: it always reads, and a loop keeps that the items done,
/// then those of the rest, are all.
pub fn item_laws<T, A>()
    ensures group { (opens : T → Bool) (width past : T → ℕ) (segment : List T → ℕ) (error : List T → A) (p : Parser T A)
        → Sole (next opens) (inside opens width past (items p.rule segment error)) (take_inside opens width past (take_items p.descent segment error)) }
    ensures part { (size : List T → ℕ) (segment : List T → ℕ) (error : List T → A) (p : Parser T A)
        → Offers nothing (reaches size) [] (within size (items p.rule segment error)) (take_within size (take_items p.descent segment error)) }
    ensures goes { (g : Descent T A) → Falls g → (segment : List T → ℕ) (error : List T → A) (all done : List A) (ts : List T) (x : Reading T A)
        → all ≡ done ++ all_items g segment error ts → g ts ≡ Some x → all ≡ (done ++ x.0 ∷ []) ++ all_items g segment error x.1 }
    ensures skips { (g : Descent T A) → Falls g → (segment : List T → ℕ) (error : List T → A) (all done : List A) (ts : List T)
        → all ≡ done ++ all_items g segment error ts → 0 < length ts → g ts ≡ None
        → all ≡ (done ++ error (take (suc (segment ts)) ts) ∷ []) ++ all_items g segment error (drop (suc (segment ts)) ts) }
    ensures ends { (g : Descent T A) (segment : List T → ℕ) (error : List T → A) (all done : List A) (ts : List T)
        → all ≡ done ++ all_items g segment error ts → length ts ≡ 0 → all ≡ done }
{}
