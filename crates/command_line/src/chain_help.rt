//! What stands below the help of the subcommands on chains.

/// Below the help of `audit`.
pub(crate) const AUDIT: &str = "\
The files are those of a chain of sessions, the first session first. Each is checked over the one
before: its green records by their fingerprints, and its executed records by running them again.
With --source the chain is accepted only if its last session is one of just these sources, in this
order.

Standard output:
  the answer of the last session, as scratch prints it: the diagnostics of the project, and then
  each class with its members and its diagnostics

Standard error:
  FILE: session K, E executed, G green  with --progress, for each session file as soon as it is taken,
                                        before all else
  accepted: S sessions, R runs          if no refusal was found; R records were run again
  or why there is no answer:
  error: WHY                    the command line is invalid
  cannot read FILE              the file can't be read; source files are read before any session file
                                is opened
  cannot write standard output  the answer is missing there, or the rest of it
  out of memory                 the system refused memory
  refused: and the first refusal. K is the index of the session, N that of its record, I the place
  of the edge or read, F that of the file in the session; all are counted from 0. 'mjrg show FILE'
  lists record N, with its key and its edges, in the line that begins with N

  3.1, 3.3 or 3.4                 the sources are no project; 'mjrg help scratch' says why
  14.2 File(K, WHY)               it is no session's file; 'mjrg help show' lists each WHY
  14.3 BrokenLink(K)              its number isn't K, or its link isn't the SHA-256 of the file before
  14.4 NoFiles(K)                 it has no record of the names of its files
  14.5 MissingSource(K, F)        it has no bytes of this file
  14.6 StraySource(K, N)          the record is a source of no file of the session
  14.7 GreenWithoutPast(K, N)     the record is green, but the session before has none of its key
  14.8 OtherEdges(K, N)           the record is green, but has other edges than in the session before
  14.9 GreenOverRed(K, N, I)      the record is green, but this edge's fingerprint has changed
  14.10 GreenPrint(K, N)          the record is green, but its own fingerprint has changed
  14.11 OtherRead(K, N, I)        run again, the record reads another key than this edge's
  14.12 UnreadEdges(K, N)         run again, the record doesn't read all its edges
  14.13 OtherResult(K, N)         run again, the record has another result
  14.14 NoAnswer                  the last session has no answer
  14.15 SourcesDiffer             the last session isn't one of just these sources in this order
  14.17 GreenAcrossProfiles(K, N) the record is green and goes by the profile, but the session before
                                  is of another one

Examples:
  mjrg audit .mjrg/c0000/*.mjrg   all sessions of the first chain in the cache .mjrg
  mjrg audit --source M.java .mjrg/c0000/*.mjrg
                                  the same, but the last one has to be of M.java alone
  mjrg audit --progress .mjrg/c0000/*.mjrg
                                  the same as the first, with a line for each session

Exit status:
  0  the chain is accepted, with diagnostics or without, or help was asked for
  2  an invalid command line, a file that can't be read, sources that are no project, or a stream that
     can't be written
  3  the chain is refused
  4  out of memory";

/// Below the help of `show`.
pub(crate) const SHOW: &str = "\
The files are those of a chain of sessions, or its first ones. Each is read after the one before, and
the last is printed. A file of form 1 can be read alone.

Standard output:
  session K version V records R, and then a line for each record, its parts separated by a space:
  its index, its kind, its class or file and its method ('-' if there is none), its mark, its
  edges (the indices of the records that it read), and the fingerprint of its result, a SHA-256

  or with --dot the graph of the session for Graphviz: each record, with an edge to each record that
  it read. An input is grey, and what is green is green. What was executed is yellow if it has its old
  result, and red if it is new or has another result than in the session before. With --of KEY there
  is only the record KEY, what it reads, what that reads, and so on. KEY is KIND, KIND CLASS or
  KIND CLASS MEMBER, in one argument; of Source and Tree the file stands in the place of CLASS

Standard error, if there is no answer:
  error: WHY                    the command line is invalid
  cannot read FILE              the file can't be read
  no record KEY                 the session has no record of the KEY of --of
  cannot write standard output  the text is missing there, or the rest of it
  out of memory                 the system refused memory
  refused: and the first refusal, of the first file that is refused. N is the index of the record and
  J the place of its edge, both counted from 0

  11.1 BadMagic         the file doesn't begin as a session's does
  11.2 Version          it is of another version
  11.3 Truncated        it ends too early
  11.4 BadDigest        its last bytes aren't the SHA-256 of all in front of them
  11.5 KeyOrder(N)      the record's key isn't greater than the one before
  11.6 BadEdge(N, J)    the edge leads to no record before it of lower rank, or stands there twice
  11.7 Result(N)        the result isn't spelled as one of its kind, or has another fingerprint
  11.8 InputKind(N)     the record is marked as an input and is none, or the other way round
  11.9 Trailing         bytes stand behind its end
  11.11 BadKey(N)       the record's kind or mark is unknown, or its names don't fit its kind
  11.12 Number          the session's number is over 9,999
  11.13 NoPastResult(N) the record is green in form 2, and the session before has no result of its key
                        with its fingerprint

Examples:
  mjrg show .mjrg/c0000/s0000.mjrg   the first session in the cache .mjrg
  mjrg show .mjrg/c0000/*.mjrg       the last one of its first chain
  mjrg show --dot .mjrg/c0000/*.mjrg | dot -Tsvg > graph.svg
                                     its graph, drawn by Graphviz
  mjrg show --dot --of 'CheckBody M main' .mjrg/c0000/*.mjrg
                                     the part of it on which the check of this body stands

Exit status:
  0  the session is printed, or help was asked for
  2  an invalid command line, a file that can't be read, a refused file, an unknown KEY, or a stream
     that can't be written
  4  out of memory";

/// Below the help of `why`.
pub(crate) const WHY: &str = "\
The files are those of a chain of sessions, or its first ones. Each is read after the one before, and
the last session is compared with the one before it.

Standard output:
  in the order of keys, a line for each input that is new, changed or gone, and one for each query
  that was executed. KEY is KIND, KIND CLASS or KIND CLASS MEMBER; of Source and Tree the file stands
  in the place of CLASS

  KEY: new                             the session before has no record of it
  KEY: changed                         an input with another value than there
  KEY: gone                            an input of the session before that isn't there any more
  KEY: red KEY2, same result           of the records that it read in the session before, in that
  KEY: red KEY2, another result        order, KEY2 is the first that isn't there now or has another
                                       fingerprint
  KEY: other profile, same result      none is red, but its kind goes by the profile, and the session
  KEY: other profile, another result   before has another one
  KEY: nothing changed, same result    none is red, and it was executed without need
  KEY: nothing changed, another result

  A query with the same result as before is cut off: nothing is executed because of it. The last line
  counts all this:

  session K: N inputs changed, E executed, C of them cut off, G green

  With --of KEY there is the line of KEY, then that of the red KEY2 named there, and so on down to an
  input, and no last line. There are three more forms then:

  KEY: green                           it was taken over
  KEY: same                            an input that is as before
  KEY: gone                            a record that isn't there any more

Standard error, if there is no answer: as show writes it

Examples:
  mjrg why .mjrg/c0000/*.mjrg     why the last session of the first chain executed what it executed
  mjrg why --of 'CheckBody M main' .mjrg/c0000/*.mjrg
                                  why it checked this body

Exit status:
  0  the lines are printed, or help was asked for
  2  an invalid command line, a file that can't be read, a refused file, an unknown KEY, or a stream
     that can't be written
  4  out of memory";
