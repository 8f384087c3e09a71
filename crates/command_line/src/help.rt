//! What the help shows beside the options.

/// The version that `--version` prints.
pub(crate) const VERSION: &str = "0.1.0";

pub(crate) const ABOUT: &str = "A log-structured key-value store in memory, driven by a script.";

pub(crate) const USAGE: &str = "ramlog [OPTIONS] < SCRIPT";

/// The lines of a script, the limits, the refusals, the exit status, and an example.
pub(crate) const AFTER_HELP: &str = "Lines of a script:
  T is a table's number, K a key, V a value, ID a segment's number, and B a backup's number.
  put T K V    Puts the value V at the key K of table T: 'ok VERSION'
  new T K V    Puts it if the key has no object, else 'mismatch VERSION'
  cas T K N V  Puts it if the key is at version N, else 'mismatch VERSION' or 'mismatch none'
  get T K      Shows the object of a key: 'VERSION VALUE', or 'none'
  del T K      Deletes the object of a key: 'ok VERSION', or 'none'
  roll         Opens the next segment of the log: 'head ID'
  beginroll    Begins a roll, and hands nothing to the backups: 'opening ID'
  push         Hands one piece of the log to one backup: 'extend B ID', 'open B ID', 'close B ID' or 'repair B ID'; or,
               once a backup has failed, makes older heads useless: 'raise ID'
  compact ID   Drops what segment ID doesn't keep from the master's memory: 'compacted ID LENGTH'
  clean ID ..  Copies what is kept of up to 32 segments to up to 4 new ones, and frees them: 'cleaned ID .. HEAD'
  begin ID ..  Begins to clean these segments: 'begun ID ..', the new ones
  copy         Copies or drops one entry of these segments: 'moved', 'carried' or 'dropped'
  seal         Hands one replica of a new segment to a backup: 'sealed B'
  free         Frees one replica of a segment that was cleaned: 'freed ID B'
  tend N       Makes up to N steps of the cleaner (1 to 65536), by itself: what is under way first; if memory is short, a
               compaction or a pass: 'tended K', the steps that were made
  clients C N P  Runs C clients (1 to 63) in threads of their own, beside a cleaner that makes P passes. Each has a key
               of its own in table 1, and makes N rounds (1 to 1000000) of a put and a get: 'clients C N CALLS', the
               calls that were accepted
  log          Shows the numbers of the log's segments, rising, the head last: 'log ID ..'
  room         Shows how many seglets of memory are counted, and how many are free: 'used N free N'
  segments     Shows the segments, one a line: 'ID ROLE LENGTH KEPT REPLICAS', where ROLE is head, opening, closed, victim
               or survivor, and KEPT is its kept bytes of objects and tombstones; and 'ID waiting 0 0 LEFT' for one that
               left the log, with LEFT replicas to be freed
  list T       Shows the live objects of table T, in the order of their keys' bytes: 'T K VERSION VALUE' .., 'listed N'
  live         Shows the bytes of the live objects, 23 + key + value each, and their limit: 'live BYTES N' or
               'live BYTES none'
  hex ID       Shows the bytes of segment ID in the master's memory, in hexadecimal
  holdings     Shows the replicas that the backups hold, one a line: 'B MASTER ID LENGTH open' or '.. closed'. No line
               stands behind them, and none at all is printed if the backups hold nothing
  will         Cuts the tables into partitions by --bytes and --objects, for the next recovery, and shows the parts:
               'T FIRST LAST PARTITION' .., 'partitions N'
  stop N       Lets the backups take N more pieces of the log, and then no more
  fault N taken  Has the backup fail that gets the N-th piece from now, though it took it; with 'lost' it took it not
  format 2     Lets masters that start later write format 2
  seglets N    Lets masters that start later have N seglets of memory: 'seglets N'. After 'refused Full' of a recovery,
               N from 'needs' lets the next one succeed
  crash        Drops the master; the backups keep what they hold
  lose B       Makes backup B lose all that it holds, once the master is gone; backups count from 0
  needs        Shows how many seglets a new master needs for the table that a recovery would find now: 'needs N', or
               'needs segments' if its list of segments has too few places
  recover      Rebuilds the table from what the backups hold, divided by the will. A new master adopts it, and the
               replicas of all others are freed. Then it shows the table: 'T K VERSION VALUE' .., 'recovered N'
  recover reverse  Does the same, and replays in reverse
  recover threads N  Does the same, and N workers (1 to 64) replay in threads of their own
  # TEXT       Does nothing, like an empty line

Limits:
  A line has at most 4096 bytes: words of visible characters, with one space between two words. A key has at most
  1024 bytes. For a key of k bytes and a value of v bytes, 50 + 2k + v is at most a quarter of --segment: by default a
  key of one byte has a value of at most 76 bytes. The object has 23 + k + v bytes, at most --largest.
  The memory has to hold four segments: --seglets is at least 4 * segment / seglet. So a greater --segment needs more
  --seglets: --segment=4096 needs --seglets=256.
  With --live, a recovery is never refused as Full while no backup fails in it, if later masters keep --seglets and
  --format. A put that would make the live objects more than --live is refused as Overcommit. If a new master can't
  always load so many bytes, the options don't fit each other. --live=0 sets the most that fit; a smaller --largest
  lets more fit.
  With --tend, the cleaner makes up to so many steps behind each put, new, cas and del, as 'tend' does, but none behind
  a compaction unless memory is tight: fewer than three whole segments are free, and one more for each 256 segments of
  memory, up to seven. If one of these finds no room, the cleaner first makes room: it is refused as Full only once the
  cleaner gains nothing more. What the cleaner is refused isn't printed.
  A master accepts as many commands as --history says, gets too. The next master counts from 0 again.
  With --forget, a master frees the memory of its durable records, 1024 at a time, once their lines have been answered.
  Then --history counts only those that it still has. Above 1024 a script goes on for ever, in constant memory.
  With --raw, which may stand anywhere among the options, each key and each value is any bytes, spaces and line feeds
  too: its length, a colon, and so many bytes, as in 'put 1 3:a b 5:he lo'. Replies and tables show them so. A line ends
  at the first line feed that is none of these bytes, and has at most 2101248 bytes. A line that begins with # has no
  such bytes.
  With --dir PATH, or --dir=PATH, the store is in that folder, and outlives the process: each answer is on the disk
  before it is printed, and a later run finds the table that this one left. A folder without a store gets one. The
  first line that is printed is 'recovered N'. Then come the replies of put, new, cas, get and del, and the rows of
  'list'. Any other line is 'refused NotOnDisk'. A command that was made, and isn't known to be on the disk, is
  'unsure NAME'. A new store has by default 3 replicas, segments of 262144 bytes, seglets of 4096, 16384 of these, and
  format 2. A later run has the options of the first one where it names none; --seglets, --history, --largest and
  --live may be others. With several --dir, backup B is in folder B mod their number, and a later run names the same
  folders in the same order. The store cleans and forgets by itself. If a folder isn't opened, 'ramlog: folder N: TEXT'
  says why: 1 the folder, 2 it is in use, 3 its registry, 4 an option, 5 a backup's file, 6 the disk, 7 memory, 8 the
  table is lost, 9 no master could begin with it.
  Up to 64 callers, its seats, share a master: the script is one, and 'clients' has up to 63.

Refusals. A line that is refused prints 'refused NAME', and the script goes on:
   1 TooBig         The put needs more than a quarter of a segment, or its object has more bytes than --largest
   2 Full           There is no room for one more segment, in memory or in the list of segments
   3 VersionsSpent  The put would take a version above 2^62
   4 HistoryFull    The master has as many records as --history says: with --forget it goes on
   5 NoMemory       The system gave no memory
   6 Halted         A backup failed, and the master can't go on: 'crash' and 'recover' make another one
   7 Rolling        A segment is being opened, or a backup has failed and its replicas are made anew: 'push' goes on
   8 Nothing        There is nothing to push, to copy, to seal or to free
   9 NotInLog ID, IsHead ID, Twice ID, NoVictims, TooMany, TooMuch or PassOpen
                    These segments can't be compacted or cleaned now; 'hex' finds no segment ID
  10 Spent          The backups take no more. The line prints 'stopped' instead, and the master is gone
  11 SegmentsSpent  A segment would have a number above 2^62
  12 NoTablet       There is no such table
  13 Lost B         Backup B failed in a 'push', a 'seal' or a 'free', and its replicas are made anew: 'push' goes on
  14 Overcommit     The put would make the live objects more than --live allows
     Down, Up       There is no master: 'recover' makes one. There is a master: 'crash' drops it
     NoHead, HeadClosed ID, HeadTooOld ID or Missing ID
                    A recovery lacks a usable replica of the newest segment, or of segment ID
A command, a roll, 'clean', 'clients' and 'recover' go on by themselves where a step answers Rolling or Lost.

Exit status:
  0  The script came to its end, whatever was refused
  1  Reading or writing failed, or memory ran out
  2  A line is bad, the words are no options, or the options don't fit each other
  3  The folder of --dir isn't opened
Standard error says which, as in 'ramlog: bad line 3'. If it is a terminal, or if --explain is among the options, a
second line says why a line is bad, or which options disagree, and a line names each command that may have been made
though it has no reply.
A script ends at its first bad line. If --keep-going is among the options, or if the script is typed at a terminal, each
bad line is named on standard error and skipped, and the status is 2 at the end. A line that is too long ends the script
all the same.

Example:
  printf 'put 1 a x\\nput 1 b y\\ncrash\\nrecover\\n' | ramlog";
