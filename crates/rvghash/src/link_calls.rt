// Many links checked under one key.
ghost use Rattle.std.specs.Prelude.{◌≡◌};
ghost use Rattle.link_many.specs.Links.{links_number, links_results};

use link_many::check_links;
use refusal::number_of;

#[unsafe(no_mangle)]
pub extern "C" fn rvghash_check_links(key: &[u8], records: &[u8], results: &mut [u8]) -> u32
    ensures { (result ≡ links_number key.now records.now results.old)
        × (results.new ≡ links_results key.now records.now results.old) }
{
    number_of(check_links(key, records, results))
}
