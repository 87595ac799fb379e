// A page as far as it is laid.
ghost use Rattle.std.specs.Prelude.{◌≡◌, ◌≤◌, ⊤};

use output::Unwritten;
use std::alloc::AllocError;

// Where it is written, the text and how many of its bytes are in use, the spaces that a further cell of the row has before it, and how
// writing went so far. An array is the text, and not the kit's `ArrayVec`: a page is copied where its writer is.
#[derive(Drop)]
pub struct Page<W> {
    pub(crate) out: W,
    pub(crate) text: [u8; 4096],
    pub(crate) used: usize,
    pub(crate) owed: usize,
    pub(crate) written: Result<(), Unwritten>,
    ghost within: { used ≤ 4096 },
    ghost gap: { owed ≤ 257 },
}

impl<W: Copy> Clone for Page<W> {
    ghost is_clone = { λ page copy. copy ≡ page };

    ghost is_infallible = { λ _. ⊤ };

    fn clone(&self) -> Result<Page<W>, AllocError> {
        Ok(*self)
    }
}

impl<W: Copy> Copy for Page<W> {}
