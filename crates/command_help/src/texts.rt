//! The texts that tell how the program is called, as constants. Sizes of chunks are told in KiB, each 1,024 bytes.

/// The text of `--version`: the version, and the toolchain it is built with.
pub const VERSION: &str = "desync 0.1.0 (rattle-kit-13)\n";

/// The text of `--help`: how each command is called, and what it does.
pub const HELP: &str = "\
desync keeps images as chunks in a store, and an index of each image.

  desync make -s STORE [-m MIN:AVG:MAX] [-n WORKERS] [--digest KIND]
      INDEX IMAGE
      cut an image into chunks, store them and write its index
  desync extract [-k] -s STORE.. [-e TIMES] [-c CACHE] [--seed INDEX..]
      [-n WORKERS] INDEX OUT
      make a file the image that an index lists
  desync cat -s STORE.. [-e TIMES] [-o OFFSET] [-l LENGTH] INDEX
      print bytes of the image that an index lists
  desync verify-index [-n WORKERS] INDEX IMAGE
      check that a file is the image that an index lists
  desync chop -s STORE [-n WORKERS] INDEX IMAGE
      put the chunks of an image that an index lists into a store
  desync cache -s STORE.. -c CACHE [-e TIMES] [-n WORKERS] INDEX..
      copy the chunks that indexes list from stores into a cache
  desync list-chunks INDEX
      print the id of each chunk that an index lists
  desync info [-s STORE..] [-e TIMES] INDEX
      print how many chunks an index lists, their sizes, and how many are there
  desync verify -s FOLDER [-r] [-n WORKERS] [--digest KIND]
      print which chunks of a store are damaged, or remove them
  desync prune -s FOLDER -y INDEX..
      remove the chunks of a store that no index lists
  desync chunk-server -s STORE.. [-c CACHE] [-e TIMES] -l HOST:PORT [-w]
      [-n WORKERS] [--digest KIND]
      serve the chunks of a store over HTTP, or with a cache those of stores
  desync index-server -s FOLDER -l HOST:PORT [-w]
      serve the indexes of a folder over HTTP
  desync demo [-n WORKERS] [--digest KIND] NUMBER SIZE
      make, store and extract an image in memory, and print what that took

Options and names may be mixed; `--` ends options. STORE is a folder, an http
URL or, for STORE.., several with `|` between that hold the same chunks;
INDEX is a file or, but for `make` and `--seed`, an http URL; MIN, AVG and MAX
are sizes in KiB; KIND is sha512-256 or sha256.

`desync COMMAND --help` tells more of a command, `desync --version` the version.
";

/// The text of `make --help`.
pub const MAKE: &str = "\
usage: desync make -s STORE [-m MIN:AVG:MAX] [-n WORKERS] [--digest KIND]
                   INDEX IMAGE

Cuts IMAGE into chunks, puts each into the store and writes the file INDEX,
which lists them. What the store holds already is left where it is right.

  -s, --store STORE             a folder, or an http URL, that takes the chunks
  -m, --chunk-size MIN:AVG:MAX  sizes of chunks in KiB, 16:64:256 if not given;
                                the last chunk may be smaller than MIN
  -n, --concurrency WORKERS     1 to 32 workers that cut IMAGE, 10 if not given
      --digest KIND             the digest that names the chunks, sha512-256 if
                                not given, or sha256, for stores and clients
                                that know only SHA-256

example: desync make -s chunks disk.caibx disk.img
";

/// The text of `extract --help`.
pub const EXTRACT: &str = "\
usage: desync extract [-k] -s STORE.. [-e TIMES] [-c CACHE] [--seed INDEX..]
                      [-n WORKERS] INDEX OUT

Makes the file OUT the image that INDEX lists: by way of a temporary file,
OUT.tmp-desync, which takes OUT's name once it is right; or with -k in place,
and what OUT holds already is kept where it is right.

  -k, --in-place                write OUT in place
  -s, --store STORE             a folder of chunks, an http URL, or several
                                with | between that hold the same; 1 to 16 in
                                all, asked in order
  -e, --error-retry TIMES       how often a failed call is made again, 0 to 16;
                                0 if not given
  -c, --cache CACHE             a folder of chunks that is asked before the
                                stores, and takes what they give
      --seed INDEX              another image's index, X.caibx, whose image is
                                the file X: chunks come from there first; up
                                to 64
  -n, --concurrency WORKERS     1 to 32 workers that fill OUT, 10 if not given

example: desync extract -k -s near -s chunks disk.caibx disk.img
";

/// The text of `cat --help`.
pub const CAT: &str = "\
usage: desync cat -s STORE.. [-e TIMES] [-o OFFSET] [-l LENGTH] INDEX

Prints the bytes of the image that INDEX lists from OFFSET on, at most LENGTH of
them, without assembling the image.

  -s, --store STORE             a folder of chunks, an http URL, or several
                                with | between that hold the same; 1 to 16 in
                                all, asked in order
  -e, --error-retry TIMES       how often a failed call is made again, 0 to 16;
                                0 if not given
  -o, --offset OFFSET           the bytes to leave out, 0 if not given; past the
                                end nothing is printed
  -l, --length LENGTH           the most bytes to print; all that follow if not
                                given

example: desync cat -s chunks -o 1048576 -l 512 disk.caibx
";

/// The text of `verify-index --help`.
pub const VERIFY_INDEX: &str = "\
usage: desync verify-index [-n WORKERS] INDEX IMAGE

Checks that IMAGE is the image that INDEX lists: its length, then each chunk.

  -n, --concurrency WORKERS     1 to 32 workers to read IMAGE, 10 if not given

example: desync verify-index disk.caibx disk.img
";

/// The text of `chop --help`.
pub const CHOP: &str = "\
usage: desync chop -s STORE [-n WORKERS] INDEX IMAGE

Puts the chunks of IMAGE that INDEX lists into the store, up to the first that
isn't IMAGE's. What the store holds already is left where it is right.

  -s, --store STORE             a folder, or an http URL, that takes the chunks
  -n, --concurrency WORKERS     1 to 32 workers to read IMAGE, 10 if not given

example: desync chop -s chunks disk.caibx disk.img
";

/// The text of `cache --help`.
pub const CACHE: &str = "\
usage: desync cache -s STORE.. -c CACHE [-e TIMES] [-n WORKERS] INDEX..

Copies the chunks that each INDEX lists from the stores into a cache, index by
index, up to the first that no store gives. What the cache holds already is left
where it is right.

  -s, --store STORE             a folder of chunks, an http URL, or several
                                with | between that hold the same; 1 to 16 in
                                all, asked in order
  -e, --error-retry TIMES       how often a failed call is made again, 0 to 16;
                                0 if not given
  -c, --cache CACHE             the folder that takes the chunks
  -n, --concurrency WORKERS     1 to 32 workers to read stores, 10 if not given

example: desync cache -s chunks -c near disk.caibx
";

/// The text of `list-chunks --help`.
pub const LIST_CHUNKS: &str = "\
usage: desync list-chunks INDEX

Prints the id of each chunk that INDEX lists, a line each, in the order of the
image and as often as it stands there.

example: desync list-chunks disk.caibx
";

/// The text of `info --help`.
pub const INFO: &str = "\
usage: desync info [-s STORE..] [-e TIMES] INDEX

Prints a line of JSON: the average, greatest and least size of chunks and the
size of the image, in bytes, and the numbers of chunks in all, of different ones
and, where stores are given, of those that some store has.

  -s, --store STORE             a folder of chunks, an http URL, or several
                                with | between that hold the same; 0 to 16 in
                                all, asked in order
  -e, --error-retry TIMES       how often a failed call is made again, 0 to 16;
                                0 if not given

example: desync info -s chunks disk.caibx
";

/// The text of `verify --help`.
pub const VERIFY: &str = "\
usage: desync verify -s FOLDER [-r] [-n WORKERS] [--digest KIND]

Reads each chunk of the store and prints a line for each that isn't what its
name says: `damaged` and its id, in the order of the ids.

  -s, --store FOLDER            the store
  -r, --repair                  remove such chunks; the line says `removed`
  -n, --concurrency WORKERS     1 to 32 workers to read chunks, 10 if not given
      --digest KIND             the digest that names the chunks, sha512-256 if
                                not given, or sha256, as `make` was told

example: desync verify -s chunks
";

/// The text of `prune --help`.
pub const PRUNE: &str = "\
usage: desync prune -s FOLDER -y INDEX..

Reads each INDEX, then removes the chunks of the store that none of them lists,
and temporary files. All other files stay.

  -s, --store FOLDER            the store
  -y, --yes                     they are removed for good

example: desync prune -s chunks -y disk.caibx
";

/// The text of `chunk-server --help`.
pub const CHUNK_SERVER: &str = "\
usage: desync chunk-server -s STORE.. [-c CACHE] [-e TIMES] -l HOST:PORT [-w]
                           [-n WORKERS] [--digest KIND]

Serves the chunks of the store over HTTP, many connections at once, until it is
killed. What doesn't have a chunk's digest is neither given nor taken.
Nobody is asked who they are: listen at localhost, or put a proxy in front.

  -s, --store STORE             a folder of chunks; with -c as for `extract`
  -c, --cache CACHE             as for `extract`; not with -w
  -e, --error-retry TIMES       as for `extract`; only with -c
  -l, --listen HOST:PORT        the address; no HOST means all addresses
  -w, --writeable               take chunks too
  -n, --concurrency WORKERS     1: in turn; 2 to 32: a thread a connection
      --digest KIND             the digest that names the chunks, sha512-256 if
                                not given, or sha256, as `make` was told

example: desync chunk-server -s chunks -l localhost:8080
";

/// The text of `index-server --help`.
pub const INDEX_SERVER: &str = "\
usage: desync index-server -s FOLDER -l HOST:PORT [-w]

Serves the indexes of a folder over HTTP, one connection after the other, until
it is killed: those whose names end in `.caibx`, as /disk.caibx. What isn't an
index is neither given nor taken.
Nobody is asked who they are.

  -s, --store FOLDER            the folder of indexes
  -l, --listen HOST:PORT        the address; no HOST means all addresses
  -w, --writeable               take indexes too

example: desync index-server -s indexes -l localhost:8081
";

/// The text of `demo --help`.
pub const DEMO: &str = "\
usage: desync demo [-n WORKERS] [--digest KIND] NUMBER SIZE

Makes SIZE bytes, up to 2^29, which NUMBER determines, and cuts, stores and
extracts them in memory, with a seed that differs in the middle. Prints what the
extraction took, in bytes and in chunks. No file is touched.

  -n, --concurrency WORKERS     1 to 32 workers that extract, 10 if not given
      --digest KIND             the digest that names the chunks, sha512-256 if
                                not given, or sha256

example: desync demo 7 1048576
";
