// Tests of public calls of fs_io: the streams over the standard library's readers and writers.
#![tactic(auto)]

#[cfg(test)]
mod streams;
