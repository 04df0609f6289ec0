//! The zones of rules alone.
ghost use Rattle.std.specs.Prelude.{IfNone, IfSome};
ghost use Rattle.zone_files.specs.RuleZones.{IsRuleZone, NeverRuleZone};
ghost use Rattle.zone_files.specs.Rules.{rule_parts};

use crate::endings::{Ending, make_ending};
use crate::tz_rule::TzRule;
use zones::Zone;

/// Returns the zone whose rule holds at all times, or `None` if the rule overlaps itself in some
/// year. It numbers the abbreviation of standard time 256, and that of daylight saving time 257.
pub fn rule_zone<'a>(rule: TzRule<'_>) -> Option<Zone<'a>>
    ensures some { IfSome result (λ z. IsRuleZone (rule_parts rule.entry) z) }
    ensures none { IfNone result (NeverRuleZone (rule_parts rule.entry)) }
{
    match make_ending(&[], Some(rule)) {
        Ending::Kept(kind) => Some(Zone::of_type(kind)),
        Ending::Goes(cycle) => Zone::of_rule(cycle),
        Ending::NoRule => None,
    }
}
