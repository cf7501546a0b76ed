// The state diagram in Graphviz's language DOT, arc by arc.
ghost use Rattle.std.specs.Prelude.{◌+◌, ◌*◌, ◌^◌, ◌≤◌, ◌<◌, ◌≡◌, ◌&&◌, eqb, length};
ghost use Rattle.text.specs.Wrote.{Put};
ghost use Rattle.diagram.specs.States.{Each};
ghost use Rattle.diagram.specs.Diagram.{width, next};
ghost use Rattle.graph.specs.Dot.{state_before, on_cycle, state_text, style_text, arc_text, arcs_text};
ghost use Rattle.graph.specs.Answers.{dot_area};
ghost use Rattle.graph.specs.Inner.{Turn, Listing, label_text, permitted_text, states_text, listed_text};

// The state to which a latency leads. From 32 places on nothing of the state is left.
fn next_of(vector: u32, state: u32, latency: u32) -> u32
    ensures { result ≡ next vector state latency }
{
    if 32 <= latency {
        return vector;
    }
    words::shift(state, latency) | vector
}

// The state after 32 turns of a cycle.
fn settled(vector: u32, cycle: &[u8]) -> u32
    requires { length cycle.now ≤ 256 }
    ensures { result ≡ state_before vector cycle.now (32 * length cycle.now) }
{
    let mut state = vector;
    for _ in 0..32u32 {
        for latency in cycle {
            state = next_of(vector, state, *latency as u32);
        }
    }
    state
}

// The states before the starts of the turn after these.
pub fn turn_states(vector: u32, cycle: &[u8]) -> [u32; 256]
    requires { length cycle.now ≤ 256 }
    ensures { Turn vector cycle.now result }
{
    let mut on = [0u32; 256];
    let mut state = settled(vector, cycle);
    for (j, latency) in cycle.iter().enumerate() {
        on[j] = state;
        state = next_of(vector, state, *latency as u32);
    }
    on
}

// Whether a state and a latency are these.
fn is_arc(state: u32, latency: u32, from: u32, by: u32) -> bool
    ensures { result ≡ eqb state from && eqb latency by }
{
    if state == from {
        return latency == by;
    }
    false
}

// The style of an arc of the cycle, nothing for another.
fn put_style(out: &mut [u8], at: usize, bold: bool) -> usize
    requires { at + 12 ≤ length out.old }
    ensures { Put 12 out.old at (style_text bold) out.new result }
{
    if bold {
        return text::put(out, at, b", style=bold");
    }
    at
}

// What stands after an arc, to the end of the line.
fn put_label(out: &mut [u8], at: usize, latency: u32, bold: bool) -> usize
    requires { at + 33 ≤ length out.old }
    ensures { Put 33 out.old at (label_text latency bold) out.new result }
{
    let after_word = text::put(out, at, b" [label=");
    let after_latency = text::put_number(out, after_word, latency);
    let after_style = put_style(out, after_latency, bold);
    text::put(out, after_style, b"];\n")
}

// What is drawn: a vector of so many columns, and a cycle with the states before the starts of a settled turn.
#[derive(Drop)]
struct Drawing<'a> {
    columns: u32,
    vector: u32,
    on: [u32; 256],
    cycle: &'a [u8],
    ghost narrow: { columns ≤ 32 },
    ghost turn: { Turn vector cycle.now on },
}

impl<'a> Drawing<'a> {
    fn new(vector: u32, cycle: &'a [u8]) -> Drawing<'a>
        requires { length cycle.now ≤ 256 }
        ensures { (result.columns ≡ width vector) × (result.vector ≡ vector) × (result.cycle.now ≡ cycle.now) }
    {
        Drawing {
            columns: diagram::width_of(vector),
            vector,
            on: turn_states(vector, cycle),
            cycle,
        }
    }

    // Whether the cycle leaves a state by a latency.
    fn is_on_cycle(&self, state: u32, latency: u32) -> bool
        ensures { result ≡ on_cycle self.now.vector self.now.cycle.now state latency }
    {
        for (j, by) in self.cycle.iter().enumerate() {
            if is_arc(self.on[j], *by as u32, state, latency) {
                return true;
            }
        }
        false
    }

    // A state in quotes, its columns from the highest down.
    fn put_state(&self, out: &mut [u8], at: usize, state: u32) -> usize
        requires { at + 34 ≤ length out.old }
        ensures { Put 34 out.old at (state_text self.now.columns state) out.new result }
    {
        let after_quote = text::put(out, at, b"\"");
        let after_state = column_text::put_columns(out, after_quote, self.columns, state);
        text::put(out, after_state, b"\"")
    }

    // The arc from a state by a latency.
    fn put_arc(&self, out: &mut [u8], at: usize, state: u32, latency: u32) -> usize
        requires { at + 107 ≤ length out.old }
        ensures { Put 107 out.old at (arc_text self.now.columns self.now.vector self.now.cycle.now state latency) out.new result }
    {
        let after_indent = text::put(out, at, b"  ");
        let after_state = self.put_state(out, after_indent, state);
        let after_arrow = text::put(out, after_state, b" -> ");
        let after_next = self.put_state(out, after_arrow, next_of(self.vector, state, latency));
        put_label(out, after_next, latency, self.is_on_cycle(state, latency))
    }

    // The arc, if the state permits the latency.
    fn put_permitted(&self, out: &mut [u8], at: usize, state: u32, index: u32) -> usize
        requires { (state < 2 ^ self.now.columns) × (index ≤ self.now.columns) × (at + 107 ≤ length out.old) }
        ensures { Put 107 out.old at (permitted_text self.now.columns self.now.vector self.now.cycle.now state index) out.new result }
    {
        if words::test(state, index) {
            return at;
        }
        self.put_arc(out, at, state, index + 1)
    }

    // The arcs of a state by rising latency.
    fn put_arcs(&self, out: &mut [u8], at: usize, state: u32) -> usize
        requires { (state < 2 ^ self.now.columns) × (at + 3531 ≤ length out.old) }
        ensures { Put 3531 out.old at (arcs_text self.now.columns self.now.vector self.now.cycle.now state) out.new result }
    {
        let mut end = at;
        for index in 0..=self.columns {
            end = self.put_permitted(out, end, state, index);
        }
        end
    }

    // The arcs of all states.
    fn put_states(&self, out: &mut [u8], at: usize, states: &[u32]) -> usize
        requires { Each (λ s. s < 2 ^ self.now.columns) states.now × (at + 3531 * length states.now ≤ length out.old) }
        ensures { Put (3531 * length states.now) out.old at (states_text self.now.columns self.now.vector self.now.cycle.now states.now) out.new result }
    {
        let mut end = at;
        for state in states {
            end = self.put_arcs(out, end, *state);
        }
        end
    }
}

// The diagram of the listed states, the first of them the vector.
pub fn put_diagram(out: &mut [u8], tag: u32, states: &[u32], cycle: &[u8]) -> usize
    requires { Listing states.now × (length cycle.now ≤ 256) × (dot_area ≤ length out.old) }
    ensures { Put dot_area out.old 0 (listed_text tag cycle.now states.now) out.new result }
{
    let drawing = Drawing::new(states[0], cycle);
    let after_word = text::put(out, 0, b"digraph function_");
    let after_tag = text::put_number(out, after_word, tag);
    let after_head = text::put(out, after_tag, b" {\n");
    let after_states = drawing.put_states(out, after_head, states);
    text::put(out, after_states, b"}\n")
}
