// What the program tells a user who does not know its lines.

/// The lines of the console and what they mean, as `--help` prints them.
pub const HELP: &str = "\
The receiver's number filter, on lines from standard input.

  W S      first line: numbers of W binary digits (1 to 32), and S slots (at most 120)
  + F L    hold the numbers from F to L; if L is below F, go on at 0 after the highest
  - F L    hold them no longer
  ? X      is X held?

Numbers are decimal, of 1 to 10 digits, with one space between them. An edit prints
\"ok\" and how many rows are in the slots, a question \"yes\" or \"no\". A line that
cannot be obeyed changes nothing and prints \"refused\" and why:

   1   W is not from 1 to 32
   2   a number needs more than W digits
   6   the held numbers would be more than 16 separate ranges
   7   their rows would be more than S
  13   this is no line of these, or it has over 64 bytes

After 1, or 13 for the first line, the program ends. At the end of the input (Ctrl-D on
a terminal) it prints the rows, one a line: 0, 1, or - where any digit will do.

Try: 3 8, then + 1 4, then ? 6, then Ctrl-D.
";

/// One line for a user at a terminal who has not yet typed any.
pub const HINT: &str =
    "receiver: type lines such as 3 8, then + 1 4, then ? 6; Ctrl-D ends, --help tells more";
