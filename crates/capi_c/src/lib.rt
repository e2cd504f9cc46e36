// The calls for C: each of `capi` under the very name that the header has for it, with its clauses, and nothing of its own.
#![tactic(auto)]

ghost use Rattle.std.specs.Prelude.{◌≡◌, cond};
ghost use Rattle.std.proofs.Math.Option.{some};
ghost use Rattle.rules.specs.Memory.{size};
ghost use Rattle.rules.specs.MemoryTest.{is_memory, power_on_memory, step_memory};
ghost use Rattle.rules.specs.Script.{operation_of, read_line};
ghost use Rattle.capi.specs.Feed.{WritesHeader, FeedsPortion, FeedsEnd};
ghost use Rattle.capi.specs.Tell.{TellsPortion, TellsEnd};
ghost use Rattle.capi.specs.Told.{Reports, TellsHead, TellsPages};
ghost use Rattle.capi.specs.Why.{why_memory, TellsWhy};

// The words of a node.
#[unsafe(no_mangle)]
pub extern "C" fn fugu_size() -> u32
    ensures { result ≡ size }
{
    capi::fugu_size()
}

// 1 where the memory is a node, else 0.
#[unsafe(no_mangle)]
pub extern "C" fn fugu_test(memory: &[u32]) -> u32
    ensures { result ≡ cond (is_memory memory.now) 1 0 }
{
    capi::fugu_test(memory)
}

// Power-on: any memory that is long enough becomes a node.
#[unsafe(no_mangle)]
pub extern "C" fn fugu_power_on(memory: &mut [u32], report: &mut [u32]) -> u32
    ensures { Reports memory.old report.old (power_on_memory memory.old) memory.new report.new result }
{
    capi::power::fugu_power_on(memory, report)
}

// A step: the operation by its letter and its numbers; those of an arrival are the group and the words.
#[unsafe(no_mangle)]
pub extern "C" fn fugu_step(
    memory: &mut [u32],
    letter: u8,
    arguments: &[u32],
    report: &mut [u32],
) -> u32
    ensures { Reports memory.old report.old (step_memory memory.old (operation_of letter (some arguments.now))) memory.new report.new result }
{
    capi::steps::fugu_step(memory, letter, arguments, report)
}

// A script line, without its newline.
#[unsafe(no_mangle)]
pub extern "C" fn fugu_line(memory: &mut [u32], text: &[u8], report: &mut [u32]) -> u32
    ensures { Reports memory.old report.old (step_memory memory.old (read_line text.now)) memory.new report.new result }
{
    capi::lines::fugu_line(memory, text, report)
}

// Where the running group's first message stands in the memory and how many words it has: 0 and 0 where there is none.
#[unsafe(no_mangle)]
pub extern "C" fn fugu_head(memory: &[u32], part: &mut [u32]) -> u32
    ensures { TellsHead memory.now part.old part.new result }
{
    capi::head::fugu_head(memory, part)
}

// Pages sent out and pages brought in so far: 0 and 0 where the memory is no node.
#[unsafe(no_mangle)]
pub extern "C" fn fugu_paging(memory: &[u32], part: &mut [u32]) -> u32
    ensures { TellsPages memory.now part.old part.new result }
{
    capi::paging::fugu_paging(memory, part)
}

// The listing's header.
#[unsafe(no_mangle)]
pub extern "C" fn fugu_header(out: &mut [u8]) -> u32
    ensures { WritesHeader out.old out.new result }
{
    capi::feed::fugu_header(out)
}

// The next portion of a script: the lines that it completes are stepped on the memory and listed.
#[unsafe(no_mangle)]
pub extern "C" fn fugu_feed(
    memory: &mut [u32],
    state: &mut [u64],
    kept: &mut [u8],
    input: &[u8],
    out: &mut [u8],
    part: &mut [u64],
) -> u32
    ensures { FeedsPortion memory.old state.old kept.old input.now out.old part.old memory.new state.new kept.new out.new part.new result }
{
    capi::feed::fugu_feed(memory, state, kept, input, out, part)
}

// The script's end: a line that has begun is its last.
#[unsafe(no_mangle)]
pub extern "C" fn fugu_feed_end(
    memory: &mut [u32],
    state: &[u64],
    kept: &[u8],
    out: &mut [u8],
    part: &mut [u64],
) -> u32
    ensures { FeedsEnd memory.old state.now kept.now out.old part.old memory.new out.new part.new result }
{
    capi::feed::fugu_feed_end(memory, state, kept, out, part)
}

// The next portion of a script: of each message that leaves the hardware queue in it the line that tells why goes into the output.
#[unsafe(no_mangle)]
pub extern "C" fn fugu_tell(
    memory: &mut [u32],
    state: &mut [u64],
    kept: &mut [u8],
    input: &[u8],
    out: &mut [u8],
    part: &mut [u64],
) -> u32
    ensures { TellsPortion memory.old state.old kept.old input.now out.old part.old memory.new state.new kept.new out.new part.new result }
{
    capi::tell::fugu_tell(memory, state, kept, input, out, part)
}

// The script's end: a line that has begun is its last, and of the messages that are still queued it is told so.
#[unsafe(no_mangle)]
pub extern "C" fn fugu_tell_end(
    memory: &mut [u32],
    state: &[u64],
    kept: &[u8],
    out: &mut [u8],
    part: &mut [u64],
) -> u32
    ensures { TellsEnd memory.old state.now kept.now out.old part.old memory.new out.new part.new result }
{
    capi::tell::fugu_tell_end(memory, state, kept, out, part)
}

// Why the message of a line was buffered, and in which line: the memory becomes a node, and the whole script is played on it.
#[unsafe(no_mangle)]
pub extern "C" fn fugu_why(memory: &mut [u32], script: &[u8], line: u32, part: &mut [u32]) -> u32
    ensures { TellsWhy memory.old part.old (why_memory memory.old script.now line) memory.new part.new result }
{
    capi::why::fugu_why(memory, script, line, part)
}
