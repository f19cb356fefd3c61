//! Which files a replica has.

ghost use Rattle.std.specs.Prelude.{◌≡◌};
ghost use Rattle.db_records.specs.depot_path.Answers.{Answers};
ghost use Rattle.depot_model.specs.Filter as spec;

use db_records::paths::{DepotPath, PathFault, Pattern, Sequence, Text};
use std::alloc::Global;
use std::marker::Model;

/// A pattern of a filter.
#[derive(Drop)]
pub struct FilterRule {
    /// Whether it keeps files out.
    pub keeps_out: bool,
    /// Which files.
    pub pattern: Pattern,
}

/// Which files a replica has, seen in contracts as its rules. The last rule that fits a file decides.
pub struct Filter {
    rules: Sequence<FilterRule>,
}

impl Drop for Filter {
    fn drop(self) {
        let Filter { rules: _ } = self;
    }
}

impl Model for Filter {
    ghost use Rattle.std.specs.Prelude.{List};
    ghost use Rattle.depot_model.specs.declared.filter.FilterRule.{FilterRule};

    ghost Value = { List FilterRule };

    ghost view = { λ filter. filter.rules };
}

/// The rule that a text spells.
fn read_rule(alloc: Global, text: &[u8]) -> Result<FilterRule, PathFault>
    ensures { Answers PathFault.Memory result (spec.rule_of text.now) }
{
    let (keeps_out, pattern) = match text {
        [b'-', rest @ ..] => (true, rest),
        _ => (false, text),
    };
    match Pattern::read(alloc, pattern, false) {
        Ok(pattern) => Ok(FilterRule { keeps_out, pattern }),
        Err(fault) => Err(fault),
    }
}

/// Whether the last of the rules that fits a path lets it in.
fn lets_in(rules: &[FilterRule], path: &DepotPath) -> bool
    ensures { result ≡ spec.is_inside rules.now path.now }
{
    let mut left = rules.len();
    while left > 0 {
        left -= 1;
        if rules[left].pattern.matches(path) {
            return !rules[left].keeps_out;
        }
    }
    false
}

impl Filter {
    /// Reads a filter, a rule from each text: a pattern, with a `-` before it where it keeps files out. It answers
    /// the fault of the first text that isn't one.
    #[tactic(auto, using(crate::proofs::Filters::one_more, crate::proofs::Filters::stops, crate::proofs::Filters::all_read))]
    pub fn read(alloc: Global, words: &[Text]) -> Result<Self, PathFault>
        ensures { Answers PathFault.Memory result (spec.filter_of words.now) }
    {
        let mut rules = Sequence::new(alloc);
        for i in 0..words.len() {
            match read_rule(alloc, words[i].as_bytes()) {
                Ok(rule) => {
                    if rules.push(rule).is_err() {
                        return Err(PathFault::Memory);
                    }
                }
                Err(fault) => return Err(fault),
            }
        }
        Ok(Filter { rules })
    }

    /// The rules.
    pub fn rules(&self) -> &[FilterRule]
        ensures { result.now ≡ self.now }
    {
        self.rules.as_slice()
    }

    /// Whether the filter has a file. It takes no memory.
    pub fn holds(&self, path: &DepotPath) -> bool
        ensures { result ≡ spec.is_inside self.now path.now }
    {
        lets_in(self.rules.as_slice(), path)
    }
}
