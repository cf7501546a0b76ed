// The issue controller over lent registers, for the unit of a lent file.
ghost use Rattle.std.specs.Prelude.{◌≡◌, length};
ghost use Rattle.words.specs.Bytes.{narrow};
ghost use Rattle.unit.specs.Numbers.{number_in};
ghost use Rattle.unit.specs.Calls.{handed};
ghost use Rattle.unit_file.specs.Read.{unit_in};
ghost use Rattle.controller.specs.Bank.{shifted, started};
ghost use Rattle.file_issue.specs.Issue.{bank_in, bank_over, tick_refusal, start_refusal};

// A time unit passes.
#[unsafe(no_mangle)]
pub extern "C" fn limedarts_tick(file: &[u8], bank: &mut [u32]) -> u32
    ensures value { result ≡ number_in (tick_refusal file.now (length bank.old)) }
    ensures bank_after { bank.new ≡ handed (tick_refusal file.now (length bank.old)) (bank_over (shifted (bank_in bank.old)) bank.old) bank.old }
{
    file_issue::tick(file, bank)
}

// A function starts, if it would collide with no task that is under way.
#[unsafe(no_mangle)]
pub extern "C" fn limedarts_start(file: &[u8], bank: &mut [u32], tag: u32) -> u32
    ensures value { result ≡ number_in (start_refusal file.now tag bank.old) }
    ensures bank_after { bank.new ≡ handed (start_refusal file.now tag bank.old) (bank_over (started (unit_in file.now) (narrow tag) (bank_in bank.old)) bank.old) bank.old }
{
    file_issue::start(file, bank, tag)
}
