// A script that is played on a rack, and what its calls answer.
use crate::call::{Line, parse, skipped, words_of};
use crate::say::say;
use grammar::lines::MOST_BYTES;
use kinds::kind::Kind;
use ledger::call::{Call, Reply};
use ledger::play::make_call;
use rack::rack::Rack;
use render::roll::Roll;
use std::fs;

// What plays a script: a rack, and where its answers are said.
#[derive(Drop)]
pub struct Player<'a, 'n, K: Kind> {
    pub(crate) rt: &'a HostRuntime,
    pub(crate) rack: Rack<'n, K>,
}

impl<'a, 'n, K: Kind> Player<'a, 'n, K> {
    // A player on a rack.
    pub fn new(rt: &'a HostRuntime, rack: Rack<'n, K>) -> Player<'a, 'n, K> {
        Player { rt, rack }
    }

    // Plays the lines from one on.
    pub fn play(&mut self, lines: &[String], first: usize) -> anyhow::Result<()> {
        for (i, line) in lines.iter().enumerate().skip(first) {
            if !skipped(line) {
                self.carry_out(i + 1, line)?;
            }
        }
        Ok(())
    }

    // Does what a line asks for.
    fn carry_out(&mut self, line: usize, text: &str) -> anyhow::Result<()> {
        match parse(words_of(text).as_slice()) {
            Some(Line::Plain(call)) => self.make_plain(call),
            Some(Line::Written(call, room)) => self.write(call, room),
            Some(Line::Load { to, file }) => self.load_file(line, to, file),
            Some(Line::Roll { place, capacity }) => self.roll(place, capacity),
            Some(
                Line::Grid {
                    place,
                    width,
                    cells,
                },
            ) => self.grid(place, width, cells),
            None => {
                println!(self.rt; "line {line}: no such call")?;
                Ok(())
            }
        }
    }

    // Makes a call that needs neither a buffer nor a renderer, and says what it answers.
    fn make_plain(&mut self, call: Call<'_>) -> anyhow::Result<()> {
        let answer = make_call(&mut self.rack, call, &mut [], &mut Roll::new(&mut []));
        say(self.rt, answer)
    }

    // Loads a file, where there is one.
    fn load_file(&mut self, line: usize, to: u32, file: &str) -> anyhow::Result<()> {
        match fs::read(self.rt, file) {
            Ok(text) => self.make_plain(Call::Load { to, text: &text }),
            Err(_) => {
                println!(self.rt; "line {line}: no file {file}")?;
                Ok(())
            }
        }
    }

    // Makes a call that writes a file, and shows the file. No file has more bytes than the longest buffer, so one with more
    // room would change no answer.
    fn write(&mut self, call: Call<'_>, room: u32) -> anyhow::Result<()> {
        let rt = self.rt;
        let mut buffer = vec![in rt.alloc(); 0u8; (room as usize).min(MOST_BYTES)]?;
        let answer = make_call(&mut self.rack, call, &mut buffer, &mut Roll::new(&mut []));
        say(rt, answer)?;
        if let Ok(Reply::Wrote(bytes)) = answer {
            buffer.truncate(bytes as usize);
            let text = String::from_utf8_lossy(rt.alloc(), &buffer)?;
            for line in text.lines() {
                println!(rt; "  {line}")?;
            }
        }
        Ok(())
    }
}
