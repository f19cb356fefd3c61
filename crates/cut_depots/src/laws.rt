//! Laws of cut depots.

ghost use Rattle.std.specs.Prelude.{List};
ghost use Rattle.depot_rows.specs.depot_model.Cut.{cut};
ghost use Rattle.depot_rows.specs.depot_model.Deeds.{Deed};
ghost use Rattle.depot_rows.specs.depot_model.Rules.{IsSound};
ghost use Rattle.depot_rows.specs.depot_model.declared.filter.FilterRule.{FilterRule};

/// A sound depot is sound without the files outside a filter, and without shelved files.
pub fn cut_depots_are_sound()
    ensures { (rules : List FilterRule) (d : List Deed) → IsSound d → IsSound (cut rules d) }
{}
