//! How a prelude is read, on a short one.

ghost use Rattle.std.specs.Prelude.{◌≡◌, true, List, [], ◌∷◌, codes, Some};
ghost use Rattle.tree_model.specs.Trees.{place};
ghost use Rattle.type_model.specs.Types.{Var, Arrow};
ghost use Rattle.signature_model.specs.Declarations.{in_prelude, built_in};
ghost use Rattle.signature_model.specs.Entries.{entry, a_value, value_kind, label_kind, type_kind};
ghost use Rattle.signature_model.specs.Lookups.{lookup, an_entry};
ghost use Rattle.typing_model.specs.Demands.{AllHold};
ghost use Rattle.typing_model.specs.Parts.{no_names};
ghost use Rattle.typing_model.specs.BuiltIns.{built_in_names};
ghost use Rattle.typing_model.specs.Items.{items_ask};
ghost use Rattle.typing_model.specs.Modules.{all_bound};
ghost use Rattle.typing_model.specs.Names.{then_by, entry_of};
ghost use Rattle.typing_model.specs.Typings.{outermost};
ghost use Rattle.typing_model.specs.First.{prelude_items, every_site, behind_prelude};
ghost use Rattle.model_checks.specs.Texts.{short_prelude};
ghost use Rattle.model_checks.specs.Scopes.{ref_type};
ghost use Rattle.model_checks.specs.Chosen.{prelude_choice};

/// type 'a ref = { mutable contents : 'a } val ref : 'a -> 'a ref, read as a prelude: it has a typing that keeps all demands; ref
/// and contents are defined in the prelude, and int is built in.
pub fn a_prelude_is_read()
    ensures typed { AllHold every_site (items_ask (outermost built_in_names every_site prelude_choice) no_names (prelude_items short_prelude)) }
    ensures value { lookup (behind_prelude short_prelude prelude_choice) [] value_kind (codes "ref") ≡ an_entry (entry (codes "ref") (in_prelude (place 44 47)) (a_value (all_bound (Arrow (Var 0) (ref_type (Var 0)))))) }
    ensures label { then_by (entry_of (lookup (behind_prelude short_prelude prelude_choice) [] label_kind (codes "contents"))) (λ e. Some e.place) ≡ Some (in_prelude (place 24 32)) }
    ensures built_in { then_by (entry_of (lookup (behind_prelude short_prelude prelude_choice) [] type_kind (codes "int"))) (λ e. Some e.place) ≡ Some (built_in 0) }
{}
