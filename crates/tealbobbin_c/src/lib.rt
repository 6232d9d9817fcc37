// The C ABI: each function of `tealbobbin` under its name, with its clauses. A slice is a pointer and a count.
#![tactic(auto)]

ghost use Rattle.std.specs.Prelude.{◌≡◌, length};
ghost use Rattle.field_base.specs.Answers.{base_add, base_sub, base_mul, base_inverse};
ghost use Rattle.field_montgomery.specs.Answers.{to_answer, from_answer, montgomery_add, montgomery_mul, montgomery_inverted};
ghost use Rattle.field.specs.Answers.{element_add, element_sub, element_mul, element_scale, element_inverse};
ghost use Rattle.refusal.specs.Number.{answer_number_of};
ghost use Rattle.isa_decoding.specs.Answer.{decode_answer};
ghost use Rattle.challenges.specs.Derived.{challenges_answer, challenges_record};
ghost use Rattle.scan_steps.specs.Scan.{scanned_maps, scanned_products, scanned_sums};
ghost use Rattle.running_arguments.specs.Answers.{scan_answer, scan_words};
ghost use Rattle.table_fill.specs.Fill.{fill_answer, fill_table};
ghost use Rattle.table_pad.specs.Pad.{pad_answer, pad_table};
ghost use Rattle.extend_answer.specs.Answer.{extend_answer};
ghost use Rattle.extend_answer.specs.Strict.{strict_answer};
ghost use Rattle.extend.specs.Extend.{extend_aux, extend_work, strict_aux, strict_work};
ghost use Rattle.check_columns.specs.Check.{check_answer};
ghost use Rattle.batch_writer.specs.Contents.{contents_of};
ghost use Rattle.batch_writer.specs.Write.{write_answer, write_batch};
ghost use Rattle.terminals_batch.specs.Into.{terminals_into, cells_into};
ghost use Rattle.tealbobbin_answers.specs.Open.{slices, open_into, slices_after};
ghost use Rattle.tealbobbin_answers.specs.Write.{told_form};
ghost use Rattle.tealbobbin_answers.specs.Decode.{decode_number_into, decode_into};
ghost use Rattle.tealbobbin_answers.specs.Check.{check_number_into, check_into};
ghost use Rattle.tealbobbin_answers.specs.Field.{base_number_into, base_into, unary_number, unary_out, binary_number, binary_out};

#[unsafe(no_mangle)]
pub extern "C" fn tealbobbin_base_add(a: u64, b: u64, out: &mut [u64]) -> u32
    ensures number { result ≡ base_number_into out.old (base_add a b) }
    ensures written { out.new ≡ base_into out.old (base_add a b) }
{
    tealbobbin::tealbobbin_base_add(a, b, out)
}

#[unsafe(no_mangle)]
pub extern "C" fn tealbobbin_base_sub(a: u64, b: u64, out: &mut [u64]) -> u32
    ensures number { result ≡ base_number_into out.old (base_sub a b) }
    ensures written { out.new ≡ base_into out.old (base_sub a b) }
{
    tealbobbin::tealbobbin_base_sub(a, b, out)
}

#[unsafe(no_mangle)]
pub extern "C" fn tealbobbin_base_mul(a: u64, b: u64, out: &mut [u64]) -> u32
    ensures number { result ≡ base_number_into out.old (base_mul a b) }
    ensures written { out.new ≡ base_into out.old (base_mul a b) }
{
    tealbobbin::tealbobbin_base_mul(a, b, out)
}

#[unsafe(no_mangle)]
pub extern "C" fn tealbobbin_base_inverse(a: u64, out: &mut [u64]) -> u32
    ensures number { result ≡ base_number_into out.old (base_inverse a) }
    ensures written { out.new ≡ base_into out.old (base_inverse a) }
{
    tealbobbin::tealbobbin_base_inverse(a, out)
}

#[unsafe(no_mangle)]
pub extern "C" fn tealbobbin_to_montgomery(a: u64, out: &mut [u64]) -> u32
    ensures number { result ≡ base_number_into out.old (to_answer a) }
    ensures written { out.new ≡ base_into out.old (to_answer a) }
{
    tealbobbin::tealbobbin_to_montgomery(a, out)
}

#[unsafe(no_mangle)]
pub extern "C" fn tealbobbin_from_montgomery(a: u64, out: &mut [u64]) -> u32
    ensures number { result ≡ base_number_into out.old (from_answer a) }
    ensures written { out.new ≡ base_into out.old (from_answer a) }
{
    tealbobbin::tealbobbin_from_montgomery(a, out)
}

#[unsafe(no_mangle)]
pub extern "C" fn tealbobbin_montgomery_add(a: u64, b: u64, out: &mut [u64]) -> u32
    ensures number { result ≡ base_number_into out.old (montgomery_add a b) }
    ensures written { out.new ≡ base_into out.old (montgomery_add a b) }
{
    tealbobbin::tealbobbin_montgomery_add(a, b, out)
}

#[unsafe(no_mangle)]
pub extern "C" fn tealbobbin_montgomery_mul(a: u64, b: u64, out: &mut [u64]) -> u32
    ensures number { result ≡ base_number_into out.old (montgomery_mul a b) }
    ensures written { out.new ≡ base_into out.old (montgomery_mul a b) }
{
    tealbobbin::tealbobbin_montgomery_mul(a, b, out)
}

#[unsafe(no_mangle)]
pub extern "C" fn tealbobbin_montgomery_inverse(a: u64, out: &mut [u64]) -> u32
    ensures number { result ≡ base_number_into out.old (montgomery_inverted a) }
    ensures written { out.new ≡ base_into out.old (montgomery_inverted a) }
{
    tealbobbin::tealbobbin_montgomery_inverse(a, out)
}

#[unsafe(no_mangle)]
pub extern "C" fn tealbobbin_element_add(a: &[u64], b: &[u64], out: &mut [u64]) -> u32
    ensures number { result ≡ binary_number element_add a.now b.now out.old }
    ensures written { out.new ≡ binary_out element_add a.now b.now out.old }
{
    tealbobbin::tealbobbin_element_add(a, b, out)
}

#[unsafe(no_mangle)]
pub extern "C" fn tealbobbin_element_sub(a: &[u64], b: &[u64], out: &mut [u64]) -> u32
    ensures number { result ≡ binary_number element_sub a.now b.now out.old }
    ensures written { out.new ≡ binary_out element_sub a.now b.now out.old }
{
    tealbobbin::tealbobbin_element_sub(a, b, out)
}

#[unsafe(no_mangle)]
pub extern "C" fn tealbobbin_element_mul(a: &[u64], b: &[u64], out: &mut [u64]) -> u32
    ensures number { result ≡ binary_number element_mul a.now b.now out.old }
    ensures written { out.new ≡ binary_out element_mul a.now b.now out.old }
{
    tealbobbin::tealbobbin_element_mul(a, b, out)
}

#[unsafe(no_mangle)]
pub extern "C" fn tealbobbin_element_scale(k: u64, a: &[u64], out: &mut [u64]) -> u32
    ensures number { result ≡ unary_number (element_scale k) a.now out.old }
    ensures written { out.new ≡ unary_out (element_scale k) a.now out.old }
{
    tealbobbin::tealbobbin_element_scale(k, a, out)
}

#[unsafe(no_mangle)]
pub extern "C" fn tealbobbin_element_inverse(a: &[u64], out: &mut [u64]) -> u32
    ensures number { result ≡ unary_number element_inverse a.now out.old }
    ensures written { out.new ≡ unary_out element_inverse a.now out.old }
{
    tealbobbin::tealbobbin_element_inverse(a, out)
}

#[unsafe(no_mangle)]
pub extern "C" fn tealbobbin_decode(row: &[u64], out: &mut [u64]) -> u32
    ensures number { result ≡ decode_number_into out.old (decode_answer row.now) }
    ensures written { out.new ≡ decode_into out.old (decode_answer row.now) }
{
    tealbobbin::tealbobbin_decode(row, out)
}

#[unsafe(no_mangle)]
pub extern "C" fn tealbobbin_challenges(
    sampled: &[u64],
    digest: &[u64],
    input: &[u64],
    output: &[u64],
    record: &mut [u64],
) -> u32
    ensures number { result ≡ answer_number_of
        (challenges_answer sampled.now digest.now input.now output.now «record».old) }
    ensures written { «record».new
        ≡ challenges_record sampled.now digest.now input.now output.now «record».old }
{
    tealbobbin::tealbobbin_challenges(sampled, digest, input, output, record)
}

#[unsafe(no_mangle)]
pub extern "C" fn tealbobbin_scan_maps(items: &mut [u64], chunk: usize) -> u32
    ensures number { result ≡ answer_number_of (scan_answer 6 items.old chunk) }
    ensures scanned { items.new ≡ scan_words 6 items.old chunk (scanned_maps items.old) }
{
    tealbobbin::tealbobbin_scan_maps(items, chunk)
}

#[unsafe(no_mangle)]
pub extern "C" fn tealbobbin_scan_products(items: &mut [u64], chunk: usize) -> u32
    ensures number { result ≡ answer_number_of (scan_answer 3 items.old chunk) }
    ensures scanned { items.new ≡ scan_words 3 items.old chunk (scanned_products items.old) }
{
    tealbobbin::tealbobbin_scan_products(items, chunk)
}

#[unsafe(no_mangle)]
pub extern "C" fn tealbobbin_scan_sums(items: &mut [u64], chunk: usize) -> u32
    ensures number { result ≡ answer_number_of (scan_answer 3 items.old chunk) }
    ensures scanned { items.new ≡ scan_words 3 items.old chunk (scanned_sums items.old) }
{
    tealbobbin::tealbobbin_scan_sums(items, chunk)
}

#[unsafe(no_mangle)]
pub extern "C" fn tealbobbin_fill(
    trace: &[u64],
    op_stack: &[u64],
    ram: &[u64],
    jump_stack: &[u64],
    table: &mut [u64],
) -> u32
    ensures number { result ≡ answer_number_of
        (fill_answer trace.now op_stack.now ram.now jump_stack.now table.old) }
    ensures filled { table.new
        ≡ fill_table trace.now op_stack.now ram.now jump_stack.now table.old }
{
    tealbobbin::tealbobbin_fill(trace, op_stack, ram, jump_stack, table)
}

#[unsafe(no_mangle)]
pub extern "C" fn tealbobbin_pad(table: &mut [u64], table_len: usize) -> u32
    ensures number { result ≡ answer_number_of (pad_answer table.old table_len) }
    ensures padded { table.new ≡ pad_table table.old table_len }
{
    tealbobbin::tealbobbin_pad(table, table_len)
}

#[unsafe(no_mangle)]
pub extern "C" fn tealbobbin_extend(
    main: &[u64],
    challenges: &[u64],
    chunk: usize,
    aux: &mut [u64],
    work: &mut [u64],
) -> u32
    ensures number { result ≡ answer_number_of
        (extend_answer main.now challenges.now chunk aux.old work.old) }
    ensures extended { aux.new
        ≡ extend_aux main.now challenges.now chunk aux.old work.old }
    ensures cleared { work.new
        ≡ extend_work main.now challenges.now chunk aux.old work.old }
{
    tealbobbin::tealbobbin_extend(main, challenges, chunk, aux, work)
}

#[unsafe(no_mangle)]
pub extern "C" fn tealbobbin_extend_strict(
    main: &[u64],
    challenges: &[u64],
    chunk: usize,
    aux: &mut [u64],
    work: &mut [u64],
) -> u32
    ensures number { result ≡ answer_number_of
        (strict_answer main.now challenges.now chunk aux.old work.old) }
    ensures extended { aux.new
        ≡ strict_aux main.now challenges.now chunk aux.old work.old }
    ensures cleared { work.new
        ≡ strict_work main.now challenges.now chunk aux.old work.old }
{
    tealbobbin::tealbobbin_extend_strict(main, challenges, chunk, aux, work)
}

#[unsafe(no_mangle)]
pub extern "C" fn tealbobbin_check(
    main: &[u64],
    challenges: &[u64],
    offered: &[u64],
    verdict: &mut [u64],
) -> u32
    ensures number { result ≡ check_number_into 1 verdict.old
        (check_answer main.now challenges.now offered.now) }
    ensures written { verdict.new ≡ check_into 1 verdict.old
        (check_answer main.now challenges.now offered.now) }
{
    tealbobbin::tealbobbin_check(main, challenges, offered, verdict)
}

#[unsafe(no_mangle)]
pub extern "C" fn tealbobbin_check_at(
    main: &[u64],
    challenges: &[u64],
    offered: &[u64],
    verdict: &mut [u64],
) -> u32
    ensures number { result ≡ check_number_into 3 verdict.old
        (check_answer main.now challenges.now offered.now) }
    ensures written { verdict.new ≡ check_into 3 verdict.old
        (check_answer main.now challenges.now offered.now) }
{
    tealbobbin::tealbobbin_check_at(main, challenges, offered, verdict)
}

#[unsafe(no_mangle)]
pub extern "C" fn tealbobbin_open(
    batch: &[u8],
    trace: &mut [u64],
    op_stack: &mut [u64],
    ram: &mut [u64],
    jump_stack: &mut [u64],
    sampled: &mut [u64],
    digest: &mut [u64],
    input: &mut [u64],
    output: &mut [u64],
    counts: &mut [u64],
) -> u32
    ensures number { result ≡ answer_number_of (open_into batch.now
        (slices trace.old op_stack.old ram.old jump_stack.old sampled.old
        digest.old input.old output.old counts.old)) }
    ensures slices { slices trace.new op_stack.new ram.new jump_stack.new sampled.new
        digest.new input.new output.new counts.new
        ≡ slices_after batch.now
        (slices trace.old op_stack.old ram.old jump_stack.old sampled.old
        digest.old input.old output.old counts.old) }
{
    tealbobbin::tealbobbin_open(
        batch, trace, op_stack, ram, jump_stack, sampled, digest, input, output, counts,
    )
}

#[unsafe(no_mangle)]
pub extern "C" fn tealbobbin_write(
    trace: &[u64],
    op_stack: &[u64],
    ram: &[u64],
    jump_stack: &[u64],
    sampled: &[u64],
    digest: &[u64],
    input: &[u64],
    output: &[u64],
    form: u64,
    k: u64,
    batch: &mut [u8],
) -> u32
    ensures number { result ≡ answer_number_of (write_answer (told_form form)
        (contents_of trace.now op_stack.now ram.now jump_stack.now sampled.now
        digest.now input.now output.now k)
        (length batch.old)) }
    ensures written { batch.new ≡ write_batch (told_form form)
        (contents_of trace.now op_stack.now ram.now jump_stack.now sampled.now
        digest.now input.now output.now k)
        batch.old }
{
    tealbobbin::tealbobbin_write(
        trace, op_stack, ram, jump_stack, sampled, digest, input, output, form, k, batch,
    )
}

#[unsafe(no_mangle)]
pub extern "C" fn tealbobbin_terminals(batch: &[u8], cells: &mut [u64]) -> u32
    ensures number { result ≡ answer_number_of (terminals_into batch.now cells.old) }
    ensures written { cells.new ≡ cells_into batch.now cells.old }
{
    tealbobbin::tealbobbin_terminals(batch, cells)
}
