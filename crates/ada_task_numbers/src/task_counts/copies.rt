// Whether the rewriters would copy more than the limit.

ghost use Rattle.std.specs.Prelude.{◌≡◌, ◌*◌, map, IfOk};
ghost use Rattle.ada_tree.specs.PlainProgram.{plain_program};
ghost use Rattle.syn_event.specs.CheckScope.{CheckScope};
ghost use Rattle.syn_event.specs.NamedTasks.{task_count};
ghost use Rattle.syn_event.specs.CheckSites.{copies_sites, all_copies_sites};
ghost use Rattle.ada_check_rules.specs.rules.Amounts.{capped};
ghost use Rattle.ada_check_rules.specs.rules.Sooner.{sooner};
ghost use Rattle.ada_check_rules.specs.rules.RefusedFirst.{refused_first};
ghost use Rattle.ada_task_numbers.specs.task_objects.PlainNames.{plain_named_tasks};
ghost use Rattle.ada_task_numbers.specs.task_counts.inner.Shares.{share_of};

use crate::task_counts::counts::task_count;
use crate::task_counts::shares::{BodyShares, Rates, body_share};
use crate::task_objects::NamedTasks;
use ada_check_rules::rules::{Counted, Refusal, Standard, count_on, product};
use ada_tree::{Program, Types};
use std::alloc::{AllocError, Global};
use syn_event::What;

// What is copied for each name that stands for tasks, behind main's own share.
fn count_copies(
    by: &Standard,
    types: &Types,
    shares: &BodyShares,
    own: Counted,
    parts: &[NamedTasks],
) -> Option<Refusal>
    ensures { (around : CheckScope) → result ≡ sooner own.refusal (refused_first by.now (copies_sites around (λ x. capped (capped (task_count types.now x) * share_of shares.now x.unit.name.name)) own.count (map plain_named_tasks parts.now))) }
{
    let mut counted = own;
    for part in parts {
        let here = product(task_count(types, part), shares.of(part.unit.name.name));
        counted = count_on(by, What::Copies, counted, here, part.name.span);
    }
    counted.refusal
}

/// What is copied for the whole program. Each body is gone through once.
pub fn refuse_copies(
    alloc: Global,
    by: &Standard,
    types: &Types,
    parts: &[NamedTasks],
    p: &Program,
) -> Result<Option<Refusal>, AllocError>
    ensures { (around : CheckScope) → around.types ≡ types.now → IfOk result (λ r. r ≡ refused_first by.now (all_copies_sites around (map plain_named_tasks parts.now) (plain_program p.now))) }
{
    let rates = Rates::new(alloc, types, parts)?;
    let shares = BodyShares::new(alloc, &rates, &p.decls)?;
    let none = Counted {
        count: 0,
        refusal: None,
    };
    let own = count_on(
        by,
        What::Copies,
        none,
        body_share(&rates, &p.body),
        p.name.span,
    );
    Ok(count_copies(by, types, &shares, own, parts))
}
