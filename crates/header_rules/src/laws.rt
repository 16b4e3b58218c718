//! Malformed header lists, by the rules that they break.
ghost use Rattle.std.specs.Prelude.{◌≡◌, true, false, List};
ghost use Rattle.hpack.specs.declared.header.Header.{Header};
ghost use Rattle.header_lists.specs.HeaderLists.{is_malformed};
ghost use Rattle.header_lists.specs.declared.kind.ListKind.{ListKind};
ghost use Rattle.header_rules.specs.ListRules.{ListRule, Breaks};

/// What `header_lists` computes of a list is whether it breaks a rule: one that is malformed breaks one,
/// one that breaks any is malformed, and one that breaks none is well formed.
pub fn malformed_law()
    ensures broken { (kind : ListKind) (headers : List Header) → is_malformed kind headers ≡ true
        → (rule : ListRule) × Breaks rule kind headers }
    ensures malformed { (kind : ListKind) (headers : List Header) (rule : ListRule)
        → Breaks rule kind headers → is_malformed kind headers ≡ true }
    ensures well_formed { (kind : ListKind) (headers : List Header)
        → ((rule : ListRule) → Breaks rule kind headers → ⊥) → is_malformed kind headers ≡ false }
{}
