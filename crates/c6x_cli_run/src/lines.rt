ghost use Rattle.c6x_ports.specs.Sink.{Puts};
ghost use Rattle.c6x_cli_run.specs.Lines.{text_line, data_line, stack_line, slot_line, field_line};

use c6x_base::{Name, hex_word};
use c6x_ports::{Sink, SinkError, put_parts};
use itoa::Buffer;

/// Prints where a text stands.
#[tactic(auto, unfolding(crate::specs::Lines::text_line))]
pub fn put_text<O: Sink>(
    sink: &mut O,
    module_name: &Name,
    base: u32,
    size: u32,
) -> Result<(), SinkError>
    ensures { Puts (text_line module_name.now base size) (O.seen sink.old) (O.seen sink.new) result }
{
    let mut number = Buffer::new();
    let size = number.format(size).as_bytes();
    put_parts(
        sink,
        &[
            b"text ",
            module_name.as_bytes(),
            b" ",
            &hex_word(base),
            b" ",
            size,
            b"\n",
        ],
    )
}

/// Prints where a data range of a process stands.
#[tactic(auto, unfolding(crate::specs::Lines::data_line))]
pub fn put_data<O: Sink>(
    sink: &mut O,
    process: &Name,
    module_name: &Name,
    base: u32,
    size: u32,
) -> Result<(), SinkError>
    ensures { Puts (data_line process.now module_name.now base size) (O.seen sink.old) (O.seen sink.new) result }
{
    let mut number = Buffer::new();
    let size = number.format(size).as_bytes();
    put_parts(
        sink,
        &[
            b"data ",
            process.as_bytes(),
            b" ",
            module_name.as_bytes(),
            b" ",
            &hex_word(base),
            b" ",
            size,
            b"\n",
        ],
    )
}

/// Prints where the stack of a process stands.
#[tactic(auto, unfolding(crate::specs::Lines::stack_line))]
pub fn put_stack<O: Sink>(
    sink: &mut O,
    process: &Name,
    base: u32,
    size: u32,
) -> Result<(), SinkError>
    ensures { Puts (stack_line process.now base size) (O.seen sink.old) (O.seen sink.new) result }
{
    let mut number = Buffer::new();
    let size = number.format(size).as_bytes();
    put_parts(
        sink,
        &[
            b"stack ",
            process.as_bytes(),
            b" ",
            &hex_word(base),
            b" ",
            size,
            b"\n",
        ],
    )
}

/// Prints a slot of the table of a process's module.
#[tactic(auto, unfolding(crate::specs::Lines::slot_line))]
pub fn put_slot<O: Sink>(
    sink: &mut O,
    process: &Name,
    module_name: &Name,
    index: u32,
    value: u32,
) -> Result<(), SinkError>
    ensures { Puts (slot_line process.now module_name.now index value) (O.seen sink.old) (O.seen sink.new) result }
{
    let mut number = Buffer::new();
    let index = number.format(index).as_bytes();
    put_parts(
        sink,
        &[
            b"slot ",
            process.as_bytes(),
            b" ",
            module_name.as_bytes(),
            b" ",
            index,
            b" ",
            &hex_word(value),
            b"\n",
        ],
    )
}

/// Prints a field of a process's module.
#[tactic(auto, unfolding(crate::specs::Lines::field_line))]
pub fn put_field<O: Sink>(
    sink: &mut O,
    process: &Name,
    module_name: &Name,
    address: u32,
    value: u32,
) -> Result<(), SinkError>
    ensures { Puts (field_line process.now module_name.now address value) (O.seen sink.old) (O.seen sink.new) result }
{
    put_parts(
        sink,
        &[
            b"field ",
            process.as_bytes(),
            b" ",
            module_name.as_bytes(),
            b" ",
            &hex_word(address),
            b" ",
            &hex_word(value),
            b"\n",
        ],
    )
}
