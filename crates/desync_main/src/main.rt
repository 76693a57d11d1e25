//! The program `desync`: files, folders and connections of the operating system under the commands.
#![tactic(auto)]

use desync_cli::run::desync;
use dsy_real::real_files::RealFiles;
use dsy_real::real_sink::RealSink;
use real_links::real_dial::RealDial;
use real_links::real_listen::RealListen;
use std::env::Env;
use std::io::ErrorKind;
use std::process::ExitCode;
use std::{env, io};

// The words after the program's name.
fn words_of<R: Env + AllocGlobal>(rt: &R) -> io::Result<Vec<String>> {
    let mut all = env::args(rt)?;
    let _program = all.next();
    Ok(all.collect(rt.alloc())?)
}

// Tells standard error where a word is no text. Want of memory is told by the status alone.
fn refuse(rt: &impl Eprint, error: &io::Error) -> ExitCode {
    if error.kind() == ErrorKind::InvalidData {
        let _ = rt.eprintln("desync: a word is no text in UTF-8");
    }
    ExitCode::FAILURE
}

fn main(rt: HostRuntime) -> ExitCode {
    let words = match words_of(&rt) {
        Ok(words) => words,
        Err(error) => return refuse(&rt, &error),
    };
    let (stdout, stderr) = (rt.stdout(), rt.stderr());
    let mut files = RealFiles::new(&rt, rt.alloc());
    let mut dial = RealDial::new(&rt);
    let mut listen = RealListen::new(&rt);
    let mut out = RealSink::new(io::writer(&stdout));
    let mut err = RealSink::new(io::writer(&stderr));
    let ended = desync(
        &rt,
        rt.alloc(),
        &words,
        &mut files,
        &mut dial,
        &mut listen,
        &mut out,
        &mut err,
    );
    ExitCode::from(ended.status)
}
