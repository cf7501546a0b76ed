// Units made and edited in a lent file.
ghost use Rattle.std.specs.Prelude.{◌≡◌, length};
ghost use Rattle.words.specs.Bytes.{narrow};
ghost use Rattle.unit.specs.Numbers.{number_in};
ghost use Rattle.unit.specs.Calls.{handed};
ghost use Rattle.unit_file.specs.File.{file_length};
ghost use Rattle.unit_file.specs.Write.{file_in_front};
ghost use Rattle.file_edits.specs.Edits.{fresh_refusal, fresh_file, edit_refusal, marked_file, unmarked_file};

// Writes the file of a unit without marks to the front of the lent bytes, and hands out its length.
#[unsafe(no_mangle)]
pub extern "C" fn limedarts_fresh(
    functions: u32,
    segments: u32,
    columns: u32,
    out: &mut [u8],
    size: &mut u32,
) -> u32
    ensures value { result ≡ number_in (fresh_refusal functions segments columns (length out.old)) }
    ensures out_after { out.new ≡ file_in_front (fresh_refusal functions segments columns (length out.old)) (fresh_file functions segments columns) out.old }
    ensures size_after { size.new ≡ handed (fresh_refusal functions segments columns (length out.old)) (file_length (narrow functions) (narrow segments)) size.old }
{
    file_edits::fresh(functions, segments, columns, out, size)
}

// Sets one mark in the file.
#[unsafe(no_mangle)]
pub extern "C" fn limedarts_mark(file: &mut [u8], tag: u32, segment: u32, column: u32) -> u32
    ensures value { result ≡ number_in (edit_refusal file.old tag segment column) }
    ensures file_after { file.new ≡ handed (edit_refusal file.old tag segment column) (marked_file file.old tag segment column) file.old }
{
    file_edits::mark(file, tag, segment, column)
}

// Clears one mark in the file.
#[unsafe(no_mangle)]
pub extern "C" fn limedarts_unmark(file: &mut [u8], tag: u32, segment: u32, column: u32) -> u32
    ensures value { result ≡ number_in (edit_refusal file.old tag segment column) }
    ensures file_after { file.new ≡ handed (edit_refusal file.old tag segment column) (unmarked_file file.old tag segment column) file.old }
{
    file_edits::unmark(file, tag, segment, column)
}
