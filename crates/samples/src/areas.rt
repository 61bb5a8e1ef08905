// Room for an index.
ghost use Rattle.std.specs.Prelude.{◌≡◌, length};

// One word more than the largest index takes.
pub const AREA_WORDS: usize = 208330;

// Of its words none is zero.
pub fn large_area() -> [u32; AREA_WORDS]
    ensures { 208330 ≡ length result }
{
    [7; AREA_WORDS]
}
