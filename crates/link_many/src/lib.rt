// Many links checked under one key, in one call: document 02, Ask 7.
#![tactic(auto)]

ghost use Rattle.std.specs.Prelude.{◌≡◌, ◌*◌, length};
ghost use Rattle.refusal.specs.Refusal.{number_of};
ghost use Rattle.ghash_block.specs.Block.{value_of, key_of};
ghost use Rattle.link_many.specs.Links.{agrees, answers, links_refusal, links_number, links_results};
ghost use Rattle.link_many.specs.Prepared.{Prepared};

use ghash_block::block::{Block, Key};
use ghash_bytes::{block_at, key_at_start};
use ghash_fast::product_fast;
use ghash_step::length_block;
use ghash_tables::{TABLES, fill_tables};
use refusal::Refusal;

// The bytes of a record: a claim block, and the hash that is expected for it.
const LINK_BYTES: usize = 32;

// The refusal by the lengths of key, records and results.
fn refusal(key: usize, records: usize, results: usize) -> Result<(), Refusal>
    ensures { number_of result ≡ links_refusal key records results }
{
    if key != 16 {
        return Err(Refusal::Not16Bytes);
    }
    if records % LINK_BYTES != 0 || results != records / LINK_BYTES {
        return Err(Refusal::BadLinks);
    }
    Ok(())
}

// What all records need, made once: the tables of the key's square, and the length block times the key.
#[derive(Clone, Copy)]
struct LinkKey<'a> {
    key: Key,
    squares: &'a [u64; TABLES],
    last: Block,
    ghost prepared: { Prepared (key_of key) squares.now (value_of last) },
}

impl<'a> LinkKey<'a> {
    fn new(key: Key, numbers: &'a mut [u64; TABLES]) -> LinkKey<'a>
        ensures { result.key ≡ key }
    {
        fill_tables(numbers, key);
        let square = product_fast(numbers, Block::from(key));
        let last = product_fast(numbers, length_block(16, 0));
        fill_tables(numbers, Key::from(square));
        LinkKey {
            key,
            squares: numbers,
            last,
        }
    }

    // Whether a link, a record of 32 bytes, agrees.
    fn agrees(&self, link: &[u8]) -> bool
        requires { length link.now ≡ 32 }
        ensures { result ≡ agrees (key_of self.now.key) link.now }
    {
        let hash = product_fast(self.squares, block_at(link, 0)).xor(self.last);
        hash == block_at(link, 16)
    }

    // The answers, one for each record.
    fn put_answers(&self, records: &[u8], results: &mut [u8])
        requires { length records.now ≡ 32 * length results.old }
        ensures { results.new ≡ answers (key_of self.now.key) records.now }
    {
        for (i, result) in results.iter_mut().enumerate() {
            let link = &records[LINK_BYTES * i..LINK_BYTES * (i + 1)];
            *result = u8::from(self.agrees(link));
        }
    }
}

// Checks each record under the key, and writes its byte to the results.
pub fn check_links(key: &[u8], records: &[u8], results: &mut [u8]) -> Result<(), Refusal>
    ensures number { number_of result ≡ links_number key.now records.now results.old }
    ensures answers { results.new ≡ links_results key.now records.now results.old }
{
    refusal(key.len(), records.len(), results.len())?;
    let mut numbers = [0u64; TABLES];
    LinkKey::new(key_at_start(key), &mut numbers).put_answers(records, results);
    Ok(())
}
