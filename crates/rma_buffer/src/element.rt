//! The basic datatype of elements, and what an operation is allowed for.
ghost use Rattle.std.specs.Prelude.{◌≡◌, List, ◌++◌, Option};
ghost use Rattle.rma_datatype.specs.declared.basic.Basic.{Basic};
ghost use Rattle.rma_type.specs.Signature.{IsComponentOf};
ghost use Rattle.rma_buffer.specs.Rules.{is_allowed};

use rma_datatype::Op;
use rma_type::Component;

/// The basic datatype that all elements of two lists have.
pub(crate) fn joined(first: Component, second: Component) -> Component
    ensures { (basics others : List Basic) → IsComponentOf basics first → IsComponentOf others second → IsComponentOf (basics ++ others) result }
{
    match (first, second) {
        (Component::Empty, other) => other,
        (other, Component::Empty) => other,
        (Component::Mixed, _) | (_, Component::Mixed) => Component::Mixed,
        (Component::One(basic), Component::One(other)) => {
            if basic == other {
                Component::One(basic)
            } else {
                Component::Mixed
            }
        }
    }
}

/// Whether the operation is allowed for elements of which this is known.
pub(crate) fn is_allowed(operation: Op, component: Component) -> bool
    ensures { (basics : List Basic) → IsComponentOf basics component → result ≡ is_allowed operation basics }
{
    match component {
        Component::Empty => true,
        Component::One(basic) => operation.allows(basic),
        Component::Mixed => false,
    }
}
