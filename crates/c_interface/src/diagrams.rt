// The state diagram, and the greedy and the best cycle, of a lent file.
ghost use Rattle.std.specs.Prelude.{◌≡◌, length};
ghost use Rattle.words.specs.Bytes.{narrow};
ghost use Rattle.unit.specs.Numbers.{number_in};
ghost use Rattle.unit.specs.Calls.{handed};
ghost use Rattle.unit_file.specs.Read.{table_in};
ghost use Rattle.collision.specs.Pipeline.{total};
ghost use Rattle.diagram.specs.Answers.{states_of, written};
ghost use Rattle.cycles.specs.Greedy.{greedy_of, WorkAfter};
ghost use Rattle.file_questions.specs.Questions.{list_refusal};
ghost use Rattle.file_cycles.specs.Cycles.{cycle_refusal, SearchHanded};

// The states in the order in which they are found, and their number.
#[unsafe(no_mangle)]
pub extern "C" fn limedarts_states(file: &[u8], tag: u32, out: &mut [u32], count: &mut u32) -> u32
    ensures value { result ≡ number_in (list_refusal file.now tag (length out.old)) }
    ensures out_after { out.new ≡ written (list_refusal file.now tag (length out.old)) (states_of 1 (table_in file.now) (narrow tag)) out.old }
    ensures count_after { count.new ≡ handed (list_refusal file.now tag (length out.old)) (length (states_of 1 (table_in file.now) (narrow tag))) count.old }
{
    file_questions::states(file, tag, out, count)
}

// The greedy cycle: its latencies, their number and their sum.
#[unsafe(no_mangle)]
pub extern "C" fn limedarts_greedy(
    file: &[u8],
    tag: u32,
    work: &mut [u32],
    out: &mut [u8],
    count: &mut u32,
    sum: &mut u32,
) -> u32
    ensures value { result ≡ number_in (cycle_refusal file.now tag (length work.old) (length out.old)) }
    ensures out_after { out.new ≡ written (cycle_refusal file.now tag (length work.old) (length out.old)) (greedy_of 1 (table_in file.now) (narrow tag)) out.old }
    ensures count_after { count.new ≡ handed (cycle_refusal file.now tag (length work.old) (length out.old)) (length (greedy_of 1 (table_in file.now) (narrow tag))) count.old }
    ensures sum_after { sum.new ≡ handed (cycle_refusal file.now tag (length work.old) (length out.old)) (total (greedy_of 1 (table_in file.now) (narrow tag))) sum.old }
    ensures work_after { WorkAfter (cycle_refusal file.now tag (length work.old) (length out.old)) work.old work.new }
{
    file_cycles::greedy(file, tag, work, out, count, sum)
}

// The best cycle: its latencies, their number and their sum.
#[unsafe(no_mangle)]
pub extern "C" fn limedarts_search(
    file: &[u8],
    tag: u32,
    work: &mut [u32],
    out: &mut [u8],
    count: &mut u32,
    sum: &mut u32,
) -> u32
    ensures { SearchHanded file.now tag work.old work.new out.old out.new count.old count.new sum.old sum.new result }
{
    file_cycles::search(file, tag, work, out, count, sum)
}
