// Proposed orders.

// The last place first.
pub fn reverse(order: &mut [u16]) {
    for (place, entry) in order.iter_mut().rev().enumerate() {
        *entry = (place & 0xffff) as u16;
    }
}
