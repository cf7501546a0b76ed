// Questions about a function of a lent file.
ghost use Rattle.std.specs.Prelude.{◌≡◌, cond};
ghost use Rattle.words.specs.Bytes.{narrow};
ghost use Rattle.unit.specs.Numbers.{number_in};
ghost use Rattle.unit.specs.Calls.{handed};
ghost use Rattle.unit_file.specs.Read.{table_in};
ghost use Rattle.collision.specs.Vector.{vector_word, row_word, bound_of, upper_of, constant_of};
ghost use Rattle.judge.specs.Judge.{meets};
ghost use Rattle.file_answers.specs.Answers.{tag_refusal};
ghost use Rattle.file_questions.specs.Questions.{tags_refusal, judge_refusal};

// The collision vector of a tag.
#[unsafe(no_mangle)]
pub extern "C" fn limedarts_vector(file: &[u8], tag: u32, word: &mut u32) -> u32
    ensures value { result ≡ number_in (tag_refusal file.now tag) }
    ensures word_after { word.new ≡ handed (tag_refusal file.now tag) (vector_word (table_in file.now) (narrow tag)) word.old }
{
    file_questions::vector(file, tag, word)
}

// Row `tag` of the matrix of `other`.
#[unsafe(no_mangle)]
pub extern "C" fn limedarts_matrix_row(file: &[u8], tag: u32, other: u32, word: &mut u32) -> u32
    ensures value { result ≡ number_in (tags_refusal file.now tag other) }
    ensures word_after { word.new ≡ handed (tags_refusal file.now tag other) (row_word (table_in file.now) (narrow tag) (narrow other)) word.old }
{
    file_questions::matrix_row(file, tag, other, word)
}

// The largest number of marks in one segment.
#[unsafe(no_mangle)]
pub extern "C" fn limedarts_bound(file: &[u8], tag: u32, value: &mut u32) -> u32
    ensures value { result ≡ number_in (tag_refusal file.now tag) }
    ensures value_after { value.new ≡ handed (tag_refusal file.now tag) (bound_of (table_in file.now) (narrow tag)) value.old }
{
    file_measures::bound(file, tag, value)
}

// The number of 1s in the collision vector, plus 1.
#[unsafe(no_mangle)]
pub extern "C" fn limedarts_upper(file: &[u8], tag: u32, value: &mut u32) -> u32
    ensures value { result ≡ number_in (tag_refusal file.now tag) }
    ensures value_after { value.new ≡ handed (tag_refusal file.now tag) (upper_of (table_in file.now) (narrow tag)) value.old }
{
    file_measures::upper(file, tag, value)
}

// The least latency of which no multiple is forbidden.
#[unsafe(no_mangle)]
pub extern "C" fn limedarts_constant(file: &[u8], tag: u32, value: &mut u32) -> u32
    ensures value { result ≡ number_in (tag_refusal file.now tag) }
    ensures value_after { value.new ≡ handed (tag_refusal file.now tag) (constant_of (table_in file.now) (narrow tag)) value.old }
{
    file_measures::constant(file, tag, value)
}

// Hands out 1 if the cycle, repeated without end, never collides, else 0.
#[unsafe(no_mangle)]
pub extern "C" fn limedarts_judge(file: &[u8], tag: u32, cycle: &[u8], yes: &mut u32) -> u32
    ensures value { result ≡ number_in (judge_refusal file.now tag cycle.now) }
    ensures yes_after { yes.new ≡ handed (judge_refusal file.now tag cycle.now) (cond (meets (table_in file.now) (narrow tag) cycle.now) 0 1) yes.old }
{
    file_questions::judge(file, tag, cycle, yes)
}
