//! What the definitions of this crate come to.
ghost use Rattle.std.specs.Prelude.{◌≡◌};
ghost use Rattle.rma_base.specs.Limits.{rank_limit, byte_limit, line_limit, name_limit, site_limit, element_limit, block_limit, address_limit, dimension_limit, fed_limit};

use crate::limits::{BLOCKS, BYTES, DIMS, ELEMENTS, FED, LINE, NAME, RANKS, SITE, SPACE};

/// The constants of the code are the limits as they are stated.
pub fn limits_are_as_stated()
    ensures ranks { RANKS ≡ rank_limit }
    ensures bytes { BYTES ≡ byte_limit }
    ensures line { LINE ≡ line_limit }
    ensures name { NAME ≡ name_limit }
    ensures site { SITE ≡ site_limit }
    ensures elements { ELEMENTS ≡ element_limit }
    ensures blocks { BLOCKS ≡ block_limit }
    ensures addresses { SPACE ≡ address_limit }
    ensures dimensions { DIMS ≡ dimension_limit }
    ensures fed { FED ≡ fed_limit }
{}
