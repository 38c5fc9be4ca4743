//! Laws on what triggers' texts are read as, apart from the steps that read them.

ghost use Rattle.std.specs.Prelude.{◌≡◌, ◌↔◌, ◌+◌, ◌++◌, ◌∷◌, [], ℕ, true, false, codes, List, length, Option, Some, None, Result, Ok, Err};
ghost use Rattle.ft_fields.specs.declared.event.Name.{Name};
ghost use Rattle.std.specs.List.{list_all, list_any};
ghost use Rattle.ft_filter.specs.FilterIs.{FilterIs};
ghost use Rattle.ft_filter.specs.Tree.{Tree};
ghost use Rattle.ft_text.specs.Tokens.{is_gap};
ghost use Rattle.ft_hist.specs.Canonical.{canonical};
ghost use Rattle.ft_hist.specs.Hist.{Hist, IsWithin, with_filter};
ghost use Rattle.ft_hist.specs.Sound.{IsSound};
ghost use Rattle.ft_head.specs.declared.draft.Kind.{Kind};
ghost use Rattle.ft_hist.specs.declared.fault.TriggerFault.{TriggerFault};
ghost use Rattle.ft_hist.specs.declared.fault.TriggerFault.TheVariants.{Duplicate};
ghost use Rattle.ft_head.specs.Draft.{Draft, empty_draft, parts_from, with_part, is_part_left_out, items_of, with_key, with_value, with_sort};
ghost use Rattle.ft_head.specs.PartSpelling.{is_part, joined_parts};
ghost use Rattle.ft_hist.specs.declared.item.KeyItem.{KeyItem};
ghost use Rattle.ft_text.specs.Items.{Piece, pieces, Word};
ghost use Rattle.ft_trigger.specs.FirstFaults.{AreBetween, AreRead, FailFirst, ReadAs, of_parts, of_items};
ghost use Rattle.ft_trigger.specs.Forms.{Form, OfKind, form_of, stands, has_read};
ghost use Rattle.ft_trigger.specs.TriggerIs.{TriggerIs, trigger_of, tail_filter};
ghost use Rattle.ft_trigger.specs.PartFaults.{PartsFail, is_late};
ghost use Rattle.ft_trigger.specs.Shape.{Cut, IsCut, TailIs, with_tail, IsShaped};

/// A law: every text has exactly one answer on every event.
pub fn one_answer()
    ensures some { (event : Name) (text : List ℕ) → TriggerIs event text (trigger_of event text) }
    ensures one { (event : Name) (text : List ℕ) (answer : Result Hist TriggerFault)
        → TriggerIs event text answer → answer ≡ trigger_of event text }
{}

/// A law: a trigger that some text gives is given again by its canonical text.
pub fn reads_again()
    ensures { (event : Name) (text : List ℕ) (hist : Hist) → TriggerIs event text (Ok hist)
        → TriggerIs event (canonical hist) (Ok hist) }
{
    ft_filter::laws::one_answer();
    ft_filter::laws::reads_again();
}

/// A law: a trigger that some text gives is of the event that the text is read on, within the
/// limits of triggers, and sound.
pub fn sound_triggers()
    ensures event { (event : Name) (text : List ℕ) (hist : Hist) → TriggerIs event text (Ok hist)
        → hist.event ≡ event }
    ensures within { (event : Name) (text : List ℕ) (hist : Hist) → TriggerIs event text (Ok hist)
        → IsWithin hist }
    ensures sound { (event : Name) (text : List ℕ) (hist : Hist) → TriggerIs event text (Ok hist)
        → IsSound hist }
{}

/// A law: a trigger that some text gives, with a filter that some text gives for its event in place
/// of its own, or with none, is given by its canonical text.
pub fn refiltered_reads_again()
    ensures some { (event : Name) (text other : List ℕ) (hist : Hist) (tree : Tree)
        → TriggerIs event text (Ok hist) → FilterIs event other (Ok tree)
        → TriggerIs event (canonical (with_filter hist (Some tree)))
        (Ok (with_filter hist (Some tree))) }
    ensures none { (event : Name) (text : List ℕ) (hist : Hist)
        → TriggerIs event text (Ok hist)
        → TriggerIs event (canonical (with_filter hist None)) (Ok (with_filter hist None)) }
{
    ft_filter::laws::one_answer();
    ft_filter::laws::reads_again();
}

/// A law: every text is a head, and then nothing, or a gap and a tail.
pub fn cuts()
    ensures { (text : List ℕ) → Cut text }
{}

/// A law: a tail says exactly one thing.
pub fn one_tail()
    ensures { (event : Name) (place : ℕ) (tail : List ℕ)
        (answer : Result (Option Tree) TriggerFault)
        → TailIs event place tail answer ↔ (tail_filter event place tail ≡ answer) }
{
    ft_filter::laws::one_answer();
}

/// A law: the head of a text decides first. The text has each fault of its head, whatever its tail
/// is; if the head by itself is a trigger, the text is that trigger with the filter that the tail
/// says, or has the tail's fault.
pub fn heads_first()
    ensures fault { (event : Name) (text head gap tail end : List ℕ) (fault : TriggerFault)
        → IsCut text head gap tail end → TriggerIs event head (Err fault)
        → TriggerIs event text (Err fault) }
    ensures tail { (event : Name) (text head gap tail end : List ℕ) (hist : Hist)
        (answer : Result (Option Tree) TriggerFault)
        → IsCut text head gap tail end → TriggerIs event head (Ok hist)
        → TailIs event (length head + length gap) tail answer
        → TriggerIs event text (with_tail hist answer) }
{
    ft_filter::laws::one_answer();
}

/// A law: the text of a trigger is a head that begins with `hist:` and is the trigger without its
/// filter, and then nothing and no filter, or a gap, `if`, a gap and the filter's text.
pub fn shapes()
    ensures { (event : Name) (text : List ℕ) (hist : Hist) → TriggerIs event text (Ok hist)
        → IsShaped event text hist }
{
    ft_filter::laws::one_answer();
}

/// A law: a fault of parts stays, whatever parts are after them, and a text has it with every tail.
/// If the parts have no space and no tab, a text has a fault, whatever is after them and a `:`, if
/// and only if the parts have it. Any other fault of the text is one that is found after its parts.
pub fn faults_stay()
    ensures stays { (event : Name) (parts more : List ℕ) (fault : TriggerFault)
        → PartsFail event parts fault → PartsFail event (parts ++ codes ":" ++ more) fault }
    ensures first { (event : Name) (text parts gap tail end : List ℕ) (fault : TriggerFault)
        → IsCut text (codes "hist:" ++ parts) gap tail end → PartsFail event parts fault
        → TriggerIs event text (Err fault) }
    ensures just { (event : Name) (parts : List ℕ) (fault : TriggerFault)
        → list_any is_gap parts ≡ false → PartsFail event parts fault
        ↔ ((more : List ℕ)
        → TriggerIs event (codes "hist:" ++ parts ++ codes ":" ++ more) (Err fault)) }
    ensures early { (event : Name) (text parts gap tail end : List ℕ) (fault : TriggerFault)
        → IsCut text (codes "hist:" ++ parts) gap tail end → TriggerIs event text (Err fault)
        → is_late (length (codes "hist:" ++ parts)) fault ≡ false → PartsFail event parts fault }
{}

/// A law: the parts of a head may stand in any order: if a head is a trigger, swapping any two
/// neighbours among its parts gives the same trigger.
pub fn any_order()
    ensures { (event : Name) (front behind : List (List ℕ)) (a b : List ℕ) (hist : Hist)
        → list_all is_part (front ++ a ∷ b ∷ behind) ≡ true
        → TriggerIs event (codes "hist:" ++ joined_parts (front ++ a ∷ b ∷ behind)) (Ok hist)
        → TriggerIs event (codes "hist:" ++ joined_parts (front ++ b ∷ a ∷ behind)) (Ok hist) }
{}

/// A law: a text is cut at a separator in one way.
pub fn one_cut()
    ensures some { (separator : ℕ) (text : List ℕ)
        → (texts : List (List ℕ)) × AreBetween separator text texts }
    ensures one { (separator : ℕ) (text : List ℕ) (texts other : List (List ℕ))
        → AreBetween separator text texts → AreBetween separator text other → texts ≡ other }
{}

/// A law: of the parts of a head, which stand between `:`, the first that has a fault, given what
/// is read of those in front of it, decides; if none has one, the answer is what is read of all. A
/// text has the first fault of its parts, whatever its tail is.
pub fn first_parts()
    ensures parts { (event : Name) (text : List ℕ) (parts : List (List ℕ))
        (answer : Result Draft TriggerFault) → AreBetween 58 text parts
        → (parts_from event empty_draft (pieces 58 5 text) ≡ answer)
        ↔ ReadAs (of_parts event) parts answer }
    ensures texts { (event : Name) (text head gap tail end : List ℕ) (parts : List (List ℕ))
        (fault : TriggerFault) → IsCut text (codes "hist:" ++ head) gap tail end
        → AreBetween 58 head parts → FailFirst (of_parts event) parts fault
        → TriggerIs event text (Err fault) }
{}

/// A law: the same holds for the items of keys, of values and of sort items, which stand between
/// `,`.
pub fn first_items()
    ensures keys { (event : Name) (place : ℕ) (text : List ℕ) (items : List (List ℕ))
        (answer : Result (List KeyItem) TriggerFault) → AreBetween 44 text items
        → (items_of (with_key event) place text ≡ answer)
        ↔ ReadAs (of_items (with_key event) place) items answer }
    ensures values { (event : Name) (place : ℕ) (text : List ℕ) (items : List (List ℕ))
        (answer : Result (List Word) TriggerFault) → AreBetween 44 text items
        → (items_of (with_value event) place text ≡ answer)
        ↔ ReadAs (of_items (with_value event) place) items answer }
    ensures sort { (place : ℕ) (text : List ℕ) (items : List (List ℕ))
        (answer : Result (List Word) TriggerFault) → AreBetween 44 text items
        → (items_of with_sort place text ≡ answer) ↔ ReadAs (of_items with_sort place) items answer }
{}

/// A law: what is read of parts shows which forms stand among them, each once, and a part's fault
/// depends on nothing else in front of it: it is the same after any parts of the same forms. A
/// second part of a kind has the fault `Duplicate`, unless it is one that is left out.
pub fn forms_in_front()
    ensures read { (event : Name) (front : List (List ℕ)) (draft : Draft) (form : Form)
        → AreRead (of_parts event) front draft → has_read form draft ≡ stands form front }
    ensures once { (event : Name) (front : List (List ℕ)) (part : List ℕ) (draft : Draft)
        → AreRead (of_parts event) (front ++ part ∷ []) draft
        → stands (form_of part) front ≡ false }
    ensures alike { (event : Name) (front before : List (List ℕ)) (draft other : Draft)
        (part : Piece) (fault : TriggerFault) → AreRead (of_parts event) front draft
        → AreRead (of_parts event) before other
        → ((form : Form) → stands form front ≡ stands form before)
        → with_part event draft part ≡ Err fault → with_part event other part ≡ Err fault }
    ensures twice { (event : Name) (front : List (List ℕ)) (draft : Draft) (part : Piece)
        (kind : Kind) → AreRead (of_parts event) front draft
        → form_of part.bytes ≡ OfKind kind → is_part_left_out part.bytes ≡ false
        → stands (OfKind kind) front ≡ true → with_part event draft part ≡ Err Duplicate }
{}
