//! Which demands of a text are kept is decided in order.

ghost use Rattle.std.specs.Prelude.{◌≡◌, Bool, true, false, List};
ghost use Rattle.tree_model.specs.Trees.{Tree};
ghost use Rattle.signature_model.specs.Entries.{Environment};
ghost use Rattle.typing_model.specs.Demands.{Site};
ghost use Rattle.typing_model.specs.Plain.{has_no_modules};
ghost use Rattle.typing_model.specs.Typings.{demands_of, is_site_among, sites_before, kept_before, is_closing, IsKept};

/// Where two sets of kept demands ask for a demand and keep the same ones before it, both keep it or neither does; a body's closing
/// is left out.
pub fn a_demand_is_decided_by_those_before()
    ensures { (env : Environment) (text : List Tree) (kept others : Site → Bool) (s : Site) → IsKept env text kept → IsKept env text others →
        is_site_among s (demands_of env text kept) ≡ true → is_site_among s (demands_of env text others) ≡ true → is_closing env text kept s ≡ false → is_closing env text others s ≡ false →
        ((x : Site) → kept_before env text kept s x ≡ kept_before env text others s x) → kept s ≡ others s }
{}

/// Which demands are asked is decided by those before: where two sets keep the same ones before a demand that the first asks for, the
/// second asks for it too, behind the same ones, and both as a body's closing or neither.
pub fn demands_are_asked_in_order()
    ensures { (env : Environment) (text : List Tree) (kept others : Site → Bool) (s : Site) → is_site_among s (demands_of env text kept) ≡ true →
        ((x : Site) → is_site_among x (sites_before s (demands_of env text kept)) ≡ true → kept x ≡ others x) →
        (is_site_among s (demands_of env text others) ≡ true) × (sites_before s (demands_of env text kept) ≡ sites_before s (demands_of env text others)) ×
        (is_closing env text kept s ≡ is_closing env text others s) }
{}

/// So two sets of kept demands of a text are one, if they keep each closing alike before which they keep the same demands.
pub fn kept_demands_are_one()
    ensures { (env : Environment) (text : List Tree) (kept others : Site → Bool) → IsKept env text kept → IsKept env text others →
        ((s : Site) → is_closing env text kept s ≡ true → is_closing env text others s ≡ true → ((x : Site) → kept_before env text kept s x ≡ kept_before env text others s x) → kept s ≡ others s) →
        (s : Site) → kept s ≡ others s }
{}

/// So they are one where the first of them asks for no closing.
pub fn kept_demands_without_closings_are_one()
    ensures { (env : Environment) (text : List Tree) (kept others : Site → Bool) → IsKept env text kept → IsKept env text others → ((s : Site) → is_closing env text kept s ≡ false) → (s : Site) → kept s ≡ others s }
{}

/// A text without modules asks for no closing, so its kept demands are one.
pub fn kept_demands_of_plain_texts_are_one()
    ensures { (env : Environment) (text : List Tree) (kept others : Site → Bool) → has_no_modules text ≡ true → IsKept env text kept → IsKept env text others → (s : Site) → kept s ≡ others s }
{}
