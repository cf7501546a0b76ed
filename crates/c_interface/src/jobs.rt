// Whole jobs: the listing of a lent file, and a list of calls from a fresh unit.
ghost use Rattle.std.specs.Prelude.{◌≡◌};
ghost use Rattle.words.specs.Bytes.{narrow};
ghost use Rattle.player.specs.Play.{Played};
ghost use Rattle.c_interface.specs.Listing.{ListingHanded};

use words::byte;

// The listing of a file, and its length.
#[unsafe(no_mangle)]
pub extern "C" fn limedarts_listing(file: &[u8], out: &mut [u8], size: &mut u32) -> u32
    ensures { ListingHanded file.now out.old out.new size.old size.new result }
{
    let listed = listing::list_file(file, out);
    match listed {
        Ok(bytes) => {
            *size = bytes;
            0
        }
        Err(why) => u32::from(why),
    }
}

// Plays a list of mark, unmark, search and read calls, each on the unit as the one before left it, from a fresh unit of the three counts, and
// hands out how many were played. A call is four bytes and a reply 262.
#[unsafe(no_mangle)]
pub extern "C" fn limedarts_play(
    functions: u32,
    segments: u32,
    columns: u32,
    calls: &[u8],
    work: &mut [u32],
    out: &mut [u8],
    count: &mut usize,
) -> u32
    ensures value { result ≡ 0 }
    ensures played { Played (narrow functions) (narrow segments) (narrow columns) calls.now out.old out.new work.old work.new count.new }
{
    *count = player::play(
        byte(functions),
        byte(segments),
        byte(columns),
        calls,
        work,
        out,
    );
    0
}
