//! The rule of the words.
use crate::lanes::Entry;
use crate::view::View;
use atomic_table::TableRule;

/// The lane rule. The table's key is the number of lanes.
pub struct LaneRule;

impl<E: Entry> TableRule<E, View<E>, u32> for LaneRule {
    ghost use Rattle.order_words.specs.Rule.{ObeysLaneRule, first_view};

    ghost holds = { λ count s. ObeysLaneRule E.lanes count s.words s.views };

    ghost first = { λ _. first_view };
}
