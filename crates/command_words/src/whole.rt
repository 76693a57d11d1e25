//! What makes words a whole command, once each of them has passed: which options have to stand, and
//! which may not stand together. Words are counted from 0, the first word after the command.

ghost use Rattle.std.specs.Prelude.{◌≡◌, ◌<◌, length, IfSome};
ghost use Rattle.command_words.specs.Whole.{is_surplus, first_surplus, lacks, why_not_whole};

use crate::option_table::{CommandKind, OptionKind};
use crate::roles::{Role, count_of, is_given};
use crate::usage::UsageWhy;

// Whether the word is an option that doesn't stand beside one folder.
fn is_surplus(before: &[Role], role: Role) -> bool
    ensures { result ≡ is_surplus before.now role }
{
    match role {
        Role::Given(OptionKind::Store) => is_given(OptionKind::Store, before),
        Role::Given(OptionKind::Retries) => true,
        _ => false,
    }
}

/// The place of the first option that doesn't stand beside one folder: a second store, or retries.
#[tactic(auto, using(crate::proofs::Lists::find_from, crate::proofs::Lists::find_ended))]
pub fn first_surplus(roles: &[Role]) -> Option<usize>
    ensures value { result ≡ first_surplus roles.now }
    ensures inside { IfSome result (λ i. i < length roles.now) }
{
    for i in 0..roles.len() {
        if is_surplus(&roles[..i], roles[i]) {
            return Some(i);
        }
    }
    None
}

// Whether the option stands less often than the command needs it.
fn lacks(kind: CommandKind, roles: &[Role], option: OptionKind) -> bool
    ensures { result ≡ lacks kind roles.now option }
{
    count_of(Role::Given(option), roles) < kind.times_of(option).least
}

/// Why words of these roles are no whole command.
pub fn why_not_whole(kind: CommandKind, roles: &[Role]) -> Option<UsageWhy>
    ensures { result ≡ why_not_whole kind roles.now }
{
    if lacks(kind, roles, OptionKind::Store)
        || lacks(kind, roles, OptionKind::Cache)
        || lacks(kind, roles, OptionKind::Listen)
    {
        return Some(UsageWhy::MissingOption);
    }
    if lacks(kind, roles, OptionKind::Yes) {
        return Some(UsageWhy::NeedsYes);
    }
    if count_of(Role::Operand, roles) < kind.takes().operands.least {
        return Some(UsageWhy::Operands);
    }
    if is_given(OptionKind::Cache, roles) && is_given(OptionKind::Writable, roles) {
        return Some(UsageWhy::ReadOnly);
    }
    None
}
