// How much the buffers hold. The protocol's longest table and output have 8,192 bytes, and its most headers have 13,000.
pub const MOST_BYTES: usize = 65536;

// An area is at most 65,536 words.
pub const MOST_WORDS: usize = 65536;

// A list is at most 66,000 entries; an order is shorter.
pub const MOST_ENTRIES: usize = 66000;

// The longest reply is an area after an answer of at most 16 numbers and their count; the most bytes on their way in are an area's.
pub const REPLY_BYTES: usize = 4 * MOST_WORDS + 4 * 17;
