//! The constructors of derived datatypes, as a log states them (MPI 4.0, "Datatypes").

use rma_base::{Name, Sequence};

/// A block of `indexed`: so many copies from a displacement counted in extents.
#[derive(Clone, Copy, Debug, PartialEq, Eq)]
pub struct Block {
    pub length: i32,
    pub displacement: i32,
}

/// A block of `hindexed`: so many copies from a displacement counted in bytes.
#[derive(Clone, Copy, Debug, PartialEq, Eq)]
pub struct ByteBlock {
    pub length: i32,
    pub displacement: i64,
}

/// A block of `struct`: so many copies of a datatype of its own, from a displacement counted in bytes.
#[derive(Debug, Drop)]
pub struct Member {
    pub length: i32,
    pub displacement: i64,
    pub old: Name,
}

/// A dimension of `subarray`: the size of the whole array, the size of the part, and where the part starts.
#[derive(Clone, Copy, Debug, PartialEq, Eq)]
pub struct Dimension {
    pub size: i32,
    pub part: i32,
    pub start: i32,
}

/// Which dimension of an array varies fastest.
#[derive(Clone, Copy, Debug, PartialEq, Eq)]
pub enum Order {
    /// The last, as in C.
    LastFastest,
    /// The first, as in Fortran.
    FirstFastest,
}

/// A constructor with its arguments.
#[derive(Debug, Drop)]
pub enum Make {
    /// `MPI_Type_contiguous`
    Contiguous {
        count: i32,
        old: Name,
    },
    /// `MPI_Type_vector`: the stride is counted in extents
    Vector {
        count: i32,
        length: i32,
        stride: i32,
        old: Name,
    },
    /// `MPI_Type_create_hvector`: the stride is counted in bytes
    Hvector {
        count: i32,
        length: i32,
        stride: i64,
        old: Name,
    },
    /// `MPI_Type_indexed`
    Indexed {
        old: Name,
        blocks: Sequence<Block>,
    },
    /// `MPI_Type_create_hindexed`
    Hindexed {
        old: Name,
        blocks: Sequence<ByteBlock>,
    },
    /// `MPI_Type_create_indexed_block`: displacements are counted in extents
    IndexedBlock {
        length: i32,
        old: Name,
        displacements: Sequence<i32>,
    },
    /// `MPI_Type_create_struct`
    Struct {
        members: Sequence<Member>,
    },
    /// `MPI_Type_create_resized`
    Resized {
        old: Name,
        lower: i64,
        extent: i64,
    },
    /// `MPI_Type_create_subarray`
    Subarray {
        order: Order,
        old: Name,
        dimensions: Sequence<Dimension>,
    },
}
