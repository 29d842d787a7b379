//! What is wrong with a command line.
use crate::advice::Advice;

pub const WORDS: Advice = Advice {
    means: "the words are not those of a command",
    helps: "conj --help lists the commands, conj COMMAND --help its options",
    more: "\
A command line is a command, its directory, and options in any order, each of
them at most once and one of this command. An option and its value are two
words, or one with a = between: --suffix .txt or --suffix=.txt. A value that
is a word of its own does not begin with -. At a terminal the line behind
this cause tells which word it is.
",
    wrong: "conj screen samples/crossing --treshold 1000\n",
    right: "conj screen samples/crossing --threshold 1000\n",
};

pub const VALUE: Advice = Advice {
    means: "the value of an option is out of its range",
    helps: "conj COMMAND --help tells the range of each option",
    more: "\
The option is told behind the cause. Numbers are one to twenty digits, times
are as in ephemerides, and --to is not before --from. Of several values that
are out of their ranges the first in the order of docs/FORMATS.md is told.
",
    wrong: "conj screen samples/crossing --threshold 0\n",
    right: "conj screen samples/crossing --threshold 1000\n",
};
