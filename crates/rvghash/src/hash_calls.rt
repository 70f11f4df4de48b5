// The hash of a whole message. A function for each path: the names are the C interface's.
ghost use Rattle.std.specs.Prelude.{◌≡◌};
ghost use Rattle.gf128.specs.Entries.{hash_number, hash_out};

use ghash_lent::out::put_answer;
use ghash_step::Path;
use ghash_whole::ghash;

#[unsafe(no_mangle)]
pub extern "C" fn rvghash_ghash_plain(key: &[u8], a: &[u8], c: &[u8], out: &mut [u8]) -> u32
    ensures { (result ≡ hash_number key.now a.now c.now out.old)
        × (out.new ≡ hash_out key.now a.now c.now out.old) }
{
    put_answer(ghash(Path::Plain, key, a, c), out)
}

#[unsafe(no_mangle)]
pub extern "C" fn rvghash_ghash_fast(key: &[u8], a: &[u8], c: &[u8], out: &mut [u8]) -> u32
    ensures { (result ≡ hash_number key.now a.now c.now out.old)
        × (out.new ≡ hash_out key.now a.now c.now out.old) }
{
    put_answer(ghash(Path::Fast, key, a, c), out)
}
