//! Laws of the order of acts, of what readings find, and of the next operation.

ghost use Rattle.std.specs.Prelude.{◌≡◌, ◌⊎◌, ◌↔◌, List, Option, Some, None, Contains};
ghost use Rattle.std.specs.Prelude.{map as list_map};
ghost use Rattle.std.specs.List.Sorted.{IsStrictlySortedBy};
ghost use Rattle.std.specs.declared.cmp.Ordering.TheVariants.{Less, Equal};
ghost use Rattle.ft_fields.specs.declared.key.Part.{Part};
ghost use Rattle.ft_pairs.specs.declared.at.Op.{Op};
ghost use Rattle.ft_pairs.specs.declared.at.Op.TheVariants.{Read};
ghost use Rattle.ft_pairs.specs.Order.{at_cmp};
ghost use Rattle.ft_pairs.specs.Source.{Ops, IsSource};
ghost use Rattle.ft_pairs.specs.Next.{IsBehind, IsNext, IsWalk};
ghost use Rattle.ft_pairs.specs.Edits.{KeepsSource, with_op, without_op, reads_alone};
ghost use Rattle.ft_pairs.specs.ByKey.{OpsByKey, ChangesKey, ops_of};

use crate::at::At;

/// A law: triggers act in order of place, then of id, and acts that tie are one.
pub fn one_act_order()
    ensures order { (p q : At) → ⟦<At as Ord>⟧.cmp p q ≡ at_cmp p q }
    ensures ties { (p q : At) → at_cmp p q ≡ Equal → p ≡ q }
{}

/// A law: what a reading finds is one thing or nothing, and not two.
pub fn one_source()
    ensures { (ops : Ops) (at : At) (a b : Option At)
        → IsSource ops at a → IsSource ops at b → a ≡ b }
{}

/// A law: what a reading finds depends only on the operations before it, back to the last one that
/// stays. So if one operation changes, only the next reading on the variable after it may find
/// another saving.
pub fn local_sources()
    ensures front { (old new : Ops) (at : At)
        → ((q : At) → at_cmp q at ≡ Less → new q ≡ old q)
        → (found : Option At) → IsSource old at found → IsSource new at found }
    ensures behind { (old new : Ops) (at mid : At) (op : Op)
        → old mid ≡ Some op → new mid ≡ Some op → at_cmp mid at ≡ Less
        → ((q : At) → at_cmp mid q ≡ Less → at_cmp q at ≡ Less → new q ≡ old q)
        → (found : Option At) → IsSource old at found → IsSource new at found }
{}

/// A law: after a place there is one next operation or none, and not two.
pub fn one_next()
    ensures { (ops : Ops) (after : Option At) (a b : Option (At × Op))
        → IsNext ops after a → IsNext ops after b → a ≡ b }
{}

/// A law: what a reading of a key finds, and which operation of a key is next, depends only on the
/// operations of that key.
pub fn own_operations()
    ensures sources { (old new : OpsByKey) (key : List Part)
        → ((q : At) → ops_of new key q ≡ ops_of old key q)
        → (at : At) → KeepsSource (ops_of old key) (ops_of new key) at }
    ensures nexts { (old new : OpsByKey) (key : List Part)
        → ((q : At) → ops_of new key q ≡ ops_of old key q)
        → (after : Option At) (next : Option (At × Op))
        → IsNext (ops_of old key) after next → IsNext (ops_of new key) after next }
{}

/// A law: if the operations on a variable change at only one place, each of them finds what it
/// found, except perhaps the next one after that place. So if an operation of a key comes or goes,
/// only the next one on that key may find something else.
pub fn one_operation()
    ensures place { (old new : Ops) (at : At) (next : Option (At × Op))
        → ((q : At) → (q ≡ at → ⊥) → new q ≡ old q) → IsNext new (Some at) next
        → (q : At) (op : Op) → new q ≡ Some op → next ≡ Some (q, op) ⊎ KeepsSource old new q }
    ensures inserted { (old new : OpsByKey) (key : List Part) (at : At) (put : Op)
        (next : Option (At × Op))
        → ChangesKey key (with_op at put) old new → IsNext (ops_of new key) (Some at) next
        → (k : List Part) (q : At) (op : Op) → ops_of new k q ≡ Some op
        → ((k ≡ key) × (next ≡ Some (q, op))) ⊎ KeepsSource (ops_of old k) (ops_of new k) q }
    ensures removed { (old new : OpsByKey) (key : List Part) (at : At) (next : Option (At × Op))
        → ChangesKey key (without_op at) old new → IsNext (ops_of new key) (Some at) next
        → (k : List Part) (q : At) (op : Op) → ops_of new k q ≡ Some op
        → ((k ≡ key) × (next ≡ Some (q, op))) ⊎ KeepsSource (ops_of old k) (ops_of new k) q }
{}

/// A law: if the saves of a key go, each operation finds what it found, except the reads of that
/// key, which find nothing.
pub fn reads_of_one_key()
    ensures others { (old new : OpsByKey) (key : List Part) → ChangesKey key reads_alone old new
        → (k : List Part) (q : At) (op : Op) → ops_of new k q ≡ Some op
        → ((k ≡ key) × (op ≡ Read)) ⊎ KeepsSource (ops_of old k) (ops_of new k) q }
    ensures unset { (old new : OpsByKey) (key : List Part) → ChangesKey key reads_alone old new
        → (at : At) (found : Option At) → IsSource (ops_of new key) at found → found ≡ None }
{}

/// A law: a walk from one operation to the next goes up, and has exactly the operations after the
/// place where it starts, each once.
pub fn whole_walks()
    ensures order { (ops : Ops) (after : Option At) (walk : List (At × Op)) → IsWalk ops after walk
        → IsStrictlySortedBy at_cmp (list_map (λ step. step.0) walk) }
    ensures each { (ops : Ops) (after : Option At) (walk : List (At × Op)) → IsWalk ops after walk
        → (at : At) (op : Op)
        → Contains walk (at, op) ↔ (IsBehind after at × (ops at ≡ Some op)) }
{}
