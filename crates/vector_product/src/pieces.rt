// Products of 8-bit pieces, four at once in the 16-bit lanes of a number: document 02, Ask 2, and source 003. A window holds the
// products with the 16 pieces of four bits, so that a product with eight bits takes two look-ups.
ghost use Rattle.std.specs.Prelude.{◌≡◌, ℕ, ◌%◌, ◌^◌};
ghost use Rattle.vector_product.specs.Pieces.{even_pieces, even_products, Window};

// The numbers in a window.
pub const WINDOW: usize = 16;

// The pieces 0, 2, 4 and 6 of a number.
fn even_pieces(a: u64) -> u64
    ensures { result ≡ even_pieces a }
{
    a & 0x00FF_00FF_00FF_00FF
}

// Fills the window of a number.
pub fn fill_window(t: &mut [u64; WINDOW], a: u64)
    ensures { Window a t.new }
{
    let one = even_pieces(a);
    t[0] = 0;
    t[1] = one;
    for n in 1..WINDOW / 2 {
        let double = t[n] << 1;
        t[2 * n] = double;
        t[2 * n + 1] = double ^ one;
    }
}

// The products of a number's even pieces and the lowest piece of b, with the number's window. No struct for a number with its window:
// that asks more of a caller, who may pass any table, and the fact stands in two contracts alone.
pub fn even_products(t: &[u64; WINDOW], b: u64) -> u64
    ensures { (a : ℕ) → Window a t.now → result ≡ even_products a (b % 2 ^ 8) }
{
    let first = (b % 16) as usize;
    let second = ((b >> 4) % 16) as usize;
    t[first] ^ (t[second] << 4)
}
