use crate::content::Content;
use crate::devices::Devices;
use crate::digits::bytes_of;
use crate::in_order::InOrder;
use crate::listed::Listed;
use crate::sums::put_bytes;
use crate::texts::{address_of, first_word, number_of, numbers_of};
use c6x_base::Name;
use c6x_cli::command;
use c6x_ports::{DrawnBySeed, LastFirst, Pick, Policy, RoundRobin};
use std::alloc::{AllocError, Global};
use std::io::{self, Write};

/// The policies that are handed in unless a line names others.
const POLICIES: &str = "round last drawn";

/// The longest text that is printed whole.
const MOST_PRINTED: usize = 8_192;

/// Devices in memory, the content of the next file, the policies that are handed in, and which of them are asked behind a
/// command: none, where one process is ready (1), or where four are (4).
#[derive(Drop)]
pub struct Trial {
    devices: Devices,
    content: Content,
    policies: String,
    asked: u32,
}

impl Trial {
    /// Devices without a file, and the named policies.
    pub fn new(alloc: Global) -> Result<Trial, AllocError> {
        let mut policies = String::new(alloc);
        policies.push_str(POLICIES)?;
        Ok(Trial {
            devices: Devices::new(alloc, 64, Vec::new(alloc), Vec::new(alloc))?,
            content: Content::new(alloc),
            policies,
            asked: 0,
        })
    }

    /// Does what a line says, and tells whether it says something of a trial.
    pub fn reads<W: Write + Drop>(
        &mut self,
        alloc: Global,
        out: &mut W,
        line: &str,
    ) -> io::Result<bool> {
        Ok(
            self.prepares(alloc, out, line)?
                || self.shows(alloc, out, line)?
                || self.content.reads(alloc, line)?,
        )
    }

    /// Does what a line says of devices, files or policies.
    fn prepares<W: Write + Drop>(
        &mut self,
        alloc: Global,
        out: &mut W,
        line: &str,
    ) -> io::Result<bool> {
        let (verb, rest) = first_word(line);
        match verb {
            "devices" => self.begin(alloc, rest)?,
            "board" => self.devices.set_board(alloc, number_of(rest))?,
            "put" => self.put_file(alloc, out, rest)?,
            "take" => self.take_file(alloc, rest)?,
            "policies" => self.set_policies(alloc, rest)?,
            "asked" => self.asked = number_of(rest),
            _ => return Ok(false),
        }
        Ok(true)
    }

    /// Does what a line says of a command, of the board or of files as they are.
    fn shows<W: Write + Drop>(
        &mut self,
        alloc: Global,
        out: &mut W,
        line: &str,
    ) -> io::Result<bool> {
        let (verb, rest) = first_word(line);
        match verb {
            "c6x" => self.commands(alloc, out, rest, words_of(alloc, rest)?)?,
            "c6x-hex" => self.commands(alloc, out, rest, hex_words_of(alloc, rest)?)?,
            "cuts" => self.put_cuts(alloc, out, rest)?,
            "at" => self.put_words(out, rest)?,
            "sum" => self.put_sums(out, rest)?,
            "dump" => self.put_dump(out, rest)?,
            _ => return Ok(false),
        }
        Ok(true)
    }

    /// Begins anew, with a board of the length that the first word says, and the named policies. Words behind it say which
    /// calls fail.
    fn begin(&mut self, alloc: Global, words: &str) -> Result<(), AllocError> {
        let mut calls = Vec::new(alloc);
        let mut puts = Vec::new(alloc);
        for word in words.split(' ') {
            if let Some(list) = word.strip_prefix("call=") {
                calls = numbers_of(alloc, list)?;
            }
            if let Some(list) = word.strip_prefix("put=") {
                puts = numbers_of(alloc, list)?;
            }
        }
        let (len, _) = first_word(words);
        self.devices = Devices::new(alloc, number_of(len), calls, puts)?;
        self.content = Content::new(alloc);
        self.asked = 0;
        self.set_policies(alloc, POLICIES)
    }

    /// Puts the content as the file of this name, and empties it.
    fn put_file<W: Write + Drop>(
        &mut self,
        alloc: Global,
        out: &mut W,
        name: &str,
    ) -> io::Result<()> {
        if !self.devices.stores(alloc, name, &self.content.bytes)? {
            writeln!(out, "{name} is not stored")?;
        }
        self.content = Content::new(alloc);
        Ok(())
    }

    /// Takes the file of this name as the content.
    fn take_file(&mut self, alloc: Global, name: &str) -> Result<(), AllocError> {
        self.content.bytes = self.devices.copied(alloc, name)?;
        Ok(())
    }

    /// Hands in these policies.
    fn set_policies(&mut self, alloc: Global, words: &str) -> Result<(), AllocError> {
        let mut policies = String::new(alloc);
        policies.push_str(words)?;
        self.policies = policies;
        Ok(())
    }

    /// Prints what the command with these words gives.
    fn commands<W: Write + Drop>(
        &mut self,
        alloc: Global,
        out: &mut W,
        line: &str,
        words: Vec<Name>,
    ) -> io::Result<()> {
        let mut policies: Vec<Box<dyn Policy>> = Vec::new(alloc);
        for word in self.policies.as_str().split(' ') {
            match word {
                "round" => policies.push(Box::new(alloc, RoundRobin::new())?)?,
                "last" => policies.push(Box::new(alloc, LastFirst::new())?)?,
                "drawn" => policies.push(Box::new(alloc, DrawnBySeed::new())?)?,
                "order" => policies.push(Box::new(alloc, InOrder::new())?)?,
                list => policies.push(Box::new(alloc, Listed::new(picks_of(alloc, list)?))?)?,
            }
        }
        writeln!(out, "> {line}")?;
        self.commands_under(alloc, out, words, policies)
    }

    /// The same where these policies are handed in.
    fn commands_under<W: Write + Drop>(
        &mut self,
        alloc: Global,
        out: &mut W,
        words: Vec<Name>,
        mut policies: Vec<Box<dyn Policy>>,
    ) -> io::Result<()> {
        let status = command(
            alloc,
            words,
            &mut self.devices.shelf,
            &mut self.devices.out,
            &mut self.devices.err,
            &mut self.devices.board,
            &mut policies,
        );
        put_text(out, self.devices.out.bytes())?;
        put_text(out, self.devices.err.bytes())?;
        writeln!(out, "= {status}")?;
        self.devices.empty_outputs(alloc)?;
        put_picks(out, &mut policies, self.asked)
    }

    /// Prints what a command says of a file of this name that is cut to each length below its own, where it says another
    /// thing than of the length before.
    fn put_cuts<W: Write + Drop>(
        &mut self,
        alloc: Global,
        out: &mut W,
        words: &str,
    ) -> io::Result<()> {
        let (name, words) = first_word(words);
        let whole = self.devices.copied(alloc, name)?;
        let mut before = Vec::new(alloc);
        for len in 0..whole.len() {
            let said = self.said_of(alloc, name, &whole[..len], words)?;
            if said.as_slice() != before.as_slice() {
                write!(out, "{len}: ")?;
                out.write_all(&said)?;
            }
            before = said;
        }
        Ok(())
    }

    /// What a command puts on the error output where a file has these bytes.
    fn said_of(
        &mut self,
        alloc: Global,
        name: &str,
        bytes: &[u8],
        words: &str,
    ) -> Result<Vec<u8>, AllocError> {
        self.devices.stores(alloc, name, bytes)?;
        command(
            alloc,
            words_of(alloc, words)?,
            &mut self.devices.shelf,
            &mut self.devices.out,
            &mut self.devices.err,
            &mut self.devices.board,
            &mut Vec::new(alloc),
        );
        let said = Vec::from_slice(alloc, self.devices.err.bytes())?;
        self.devices.empty_outputs(alloc)?;
        Ok(said)
    }

    /// Prints the words at these addresses of the board.
    fn put_words<W: Write + Drop>(&self, out: &mut W, places: &str) -> io::Result<()> {
        write!(out, "at")?;
        for place in places.split(' ') {
            match self.devices.word(address_of(place)) {
                Some(word) => write!(out, " {word:08x}")?,
                None => write!(out, " none")?,
            }
        }
        writeln!(out)
    }

    /// Prints the lengths and sums of files.
    fn put_sums<W: Write + Drop>(&self, out: &mut W, names: &str) -> io::Result<()> {
        for name in names.split(' ') {
            write!(out, "{name}")?;
            match self.devices.file(name) {
                Some(bytes) => put_bytes(out, bytes)?,
                None => write!(out, " none")?,
            }
            writeln!(out)?;
        }
        Ok(())
    }

    /// Prints the bytes of a file, eight words a line.
    fn put_dump<W: Write + Drop>(&self, out: &mut W, name: &str) -> io::Result<()> {
        for line in self.devices.file(name).unwrap_or(&[]).chunks(32) {
            put_dump_line(out, line)?;
        }
        Ok(())
    }
}

/// Prints bytes in groups of four.
fn put_dump_line<W: Write + Drop>(out: &mut W, bytes: &[u8]) -> io::Result<()> {
    for (number, byte) in bytes.iter().enumerate() {
        if number > 0 && number % 4 == 0 {
            write!(out, " ")?;
        }
        write!(out, "{byte:02x}")?;
    }
    writeln!(out)
}

/// Prints a text, and of a long one the length and the sum.
fn put_text<W: Write + Drop>(out: &mut W, text: &[u8]) -> io::Result<()> {
    if text.len() <= MOST_PRINTED {
        return out.write_all(text);
    }
    write!(out, "..")?;
    put_bytes(out, text)?;
    writeln!(out)
}

/// Prints what each policy answers then.
fn put_picks<W: Write + Drop>(
    out: &mut W,
    policies: &mut Vec<Box<dyn Policy>>,
    asked: u32,
) -> io::Result<()> {
    if asked == 0 {
        return Ok(());
    }
    for policy in policies.iter_mut() {
        let pick = match asked {
            1 => policy.choose(&[0]),
            _ => policy.choose(&[0, 3, 4, 9]),
        };
        writeln!(out, "{} for {}", pick.process, pick.steps)?;
    }
    Ok(())
}

/// The picks of a list with commas, each a process and a number of cycles.
fn picks_of(alloc: Global, list: &str) -> Result<Vec<Pick>, AllocError> {
    let mut picks = Vec::new(alloc);
    for word in list.split(',') {
        let (process, steps) = word.split_once(':').unwrap_or((word, "1"));
        picks.push(Pick {
            process: number_of(process),
            steps: number_of(steps),
        })?;
    }
    Ok(picks)
}

/// Words that are split at spaces.
fn words_of(alloc: Global, line: &str) -> Result<Vec<Name>, AllocError> {
    let mut words = Vec::new(alloc);
    for word in line.split(' ') {
        words.push(Name::from_bytes(alloc, word.as_bytes())?)?;
    }
    Ok(words)
}

/// The same of words in hexadecimal, where `-` is an empty one.
fn hex_words_of(alloc: Global, line: &str) -> Result<Vec<Name>, AllocError> {
    let mut words = Vec::new(alloc);
    for word in line.split(' ') {
        words.push(Name::from_bytes(alloc, &bytes_of(alloc, word.as_bytes())?)?)?;
    }
    Ok(words)
}
