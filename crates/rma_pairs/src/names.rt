//! The order of the names of accesses.
ghost use Rattle.std.specs.Prelude.{◌≡◌, ◌↔◌, IsTrue};
ghost use Rattle.rma_pairs.specs.Names.{IsBefore, IsEarlier, role_place};

use rma_rules::{AccessName, Role};

/// Whether one name comes before another: by rank, then by line, then by role.
pub(crate) fn is_before(a: AccessName, b: AccessName) -> bool
    ensures { IsTrue result ↔ IsBefore a b }
{
    if a.rank == b.rank {
        is_earlier(a, b)
    } else {
        a.rank.0 < b.rank.0
    }
}

/// Whether of two names of one rank the first comes before the other.
fn is_earlier(a: AccessName, b: AccessName) -> bool
    ensures { IsTrue result ↔ IsEarlier a b }
{
    if a.line == b.line {
        role_place(a.role) < role_place(b.role)
    } else {
        a.line.0 < b.line.0
    }
}

/// The place of a name among all names: they are in the order of their places.
pub(crate) fn place(name: AccessName) -> (u32, u32, u8)
    ensures { result ≡ (name.rank.0, name.line.0, role_place name.role) }
{
    (name.rank.0, name.line.0, role_place(name.role))
}

/// The place of a role among the roles.
fn role_place(role: Role) -> u8
    ensures { result ≡ role_place role }
{
    match role {
        Role::Local => 0,
        Role::Target => 1,
        Role::Origin => 2,
        Role::Result => 3,
        Role::Compare => 4,
    }
}
