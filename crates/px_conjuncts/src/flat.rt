// The conjuncts of a condition.
ghost use Rattle.std.specs.Prelude.{◌≡◌, ◌++◌, IfOk, OnOk, length};
ghost use Rattle.std.specs.List.{flat_map};
ghost use Rattle.px_conjuncts.specs.Conjuncts.{conjuncts_of, conjuncts_of_filter};
ghost use Rattle.px_conjuncts.specs.Paths.{unmarked as unmarked_of};

use px_expr::Bound;
use px_values::Items;
use std::alloc::{AllocError, Global};

/// The parts of a condition's outermost ANDs, in text order; none where no condition stands.
pub fn conjuncts(alloc: Global, filter: Option<Bound>) -> Result<Items<Bound>, AllocError>
    ensures { IfOk result (λ cs. cs ≡ conjuncts_of_filter filter) }
{
    let mut list = Vec::new(alloc);
    if let Some(condition) = filter {
        add_conjuncts(condition, &mut list)?;
    }
    Ok(Items::of(list))
}

#[cycle(flattening)]
#[tactic(auto, using(crate::proofs::Parts::conjuncts_and))]
fn add_conjuncts(condition: Bound, to: &mut Vec<Bound>) -> Result<(), AllocError>
    ensures { OnOk result (to.new.items ≡ to.old.items ++ conjuncts_of condition) }
{
    match condition {
        Bound::And(parts) => add_parts(parts, to),
        other => {
            to.push(other)?;
            Ok(())
        }
    }
}

#[cycle(flattening)]
fn add_parts(parts: Items<Bound>, to: &mut Vec<Bound>) -> Result<(), AllocError>
    ensures { OnOk result (to.new.items ≡ to.old.items ++ flat_map conjuncts_of parts) }
{
    for part in parts.into_vec() {
        add_conjuncts(part, to)?;
    }
    Ok(())
}

/// The conjuncts without a mark, in order.
pub fn unmarked(
    alloc: Global,
    conjuncts: Items<Bound>,
    marks: &[bool],
) -> Result<Items<Bound>, AllocError>
    requires { length marks.now ≡ length conjuncts }
    ensures { IfOk result (λ bs. bs ≡ unmarked_of conjuncts marks.now) }
{
    let mut list = Vec::new(alloc);
    let mut index = 0;
    for conjunct in conjuncts.into_vec() {
        if marks[index] {
            drop(conjunct);
        } else {
            list.push(conjunct)?;
        }
        index += 1;
    }
    Ok(Items::of(list))
}
