// The products, the step back and the degree. A product for each path: the names are the C interface's.
ghost use Rattle.std.specs.Prelude.{◌≡◌};
ghost use Rattle.std.specs.Result.{result_unwrap_or};
ghost use Rattle.refusal.specs.Refusal.{number_of};
ghost use Rattle.gf128.specs.Degree.{degree_number, degree_place};
ghost use Rattle.rvghash.specs.StepBack.{StepsBackInto};
ghost use Rattle.gf128.specs.Entries.{product_number, product_out};

use ghash_block::block::degree;
use ghash_bytes::block_at;
use ghash_inverse::step_back::step_back_bytes;
use ghash_lent::out::put_answer;
use ghash_step::{Path, product_bytes};
use refusal::{Refusal, number_of};

#[unsafe(no_mangle)]
pub extern "C" fn rvghash_product_plain(key: &[u8], block: &[u8], out: &mut [u8]) -> u32
    ensures { (result ≡ product_number key.now block.now out.old)
        × (out.new ≡ product_out key.now block.now out.old) }
{
    put_answer(product_bytes(Path::Plain, key, block), out)
}

#[unsafe(no_mangle)]
pub extern "C" fn rvghash_product_fast(key: &[u8], block: &[u8], out: &mut [u8]) -> u32
    ensures { (result ≡ product_number key.now block.now out.old)
        × (out.new ≡ product_out key.now block.now out.old) }
{
    put_answer(product_bytes(Path::Fast, key, block), out)
}

// The degree of a block given as bytes.
fn degree_of(block: &[u8]) -> Result<u32, Refusal>
    ensures { (number_of result ≡ degree_number block.now) × (result_unwrap_or result 0 ≡ degree_place block.now) }
{
    if block.len() != 16 {
        return Err(Refusal::Not16Bytes);
    }
    degree(block_at(block, 0)).ok_or(Refusal::NoneExists)
}

#[unsafe(no_mangle)]
pub extern "C" fn rvghash_degree(block: &[u8], degree: &mut u32) -> u32
    ensures { (result ≡ degree_number block.now) × (degree.new ≡ degree_place block.now) }
{
    let place = degree_of(block);
    *degree = place.unwrap_or(0);
    number_of(place)
}

// The earlier partial hash.
#[unsafe(no_mangle)]
pub extern "C" fn rvghash_step_back(key: &[u8], block: &[u8], later: &[u8], out: &mut [u8]) -> u32
    ensures { StepsBackInto key.now block.now later.now out.old result out.new }
{
    put_answer(step_back_bytes(key, block, later), out)
}
