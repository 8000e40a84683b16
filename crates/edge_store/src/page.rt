// Edges of one fact in one context, at up to 32 neighbouring statements and in both directions, are the bits of a page.
// Tables of pages stand above.
ghost use Rattle.std.specs.Prelude.{◌≡◌, ◌<◌};
ghost use Rattle.edge_store.specs.Pages.{page_of, bit_of};

use clean_base::Plain;
use ifds_model::{Dir, Node};

/// Where a page stands: its context, the number of its fact, and its own number among those of all statements.
#[derive(Clone, Copy, Debug, PartialEq, Eq, Hash)]
pub struct Page {
    pub context: u64,
    pub fact: u32,
    pub number: u32,
}

impl Plain for Page {
    ghost use Rattle.std.proofs.Common.{rules};

    ghost exact = { λ x y h. Prim.search rules };
}

/// The number of the page that has a node.
pub fn page_number(node: Node) -> u32
    ensures { result ≡ page_of node }
{
    node.stmt.0 / 32
}

/// The place of a node in its page.
pub fn bit_place(node: Node) -> u32
    ensures is { result ≡ bit_of node }
    ensures small { result < 64 }
{
    let way = match node.dir {
        Dir::Forward => 0,
        Dir::Backward => 1,
    };
    node.stmt.0 % 32 * 2 + way
}
