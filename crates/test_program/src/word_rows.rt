//! What words are told, and which are refused.

/// A configuration and a script behind it.
pub const SCRIPT: &[u8] =
    b"pages = 4\npage_size = 8\nmax_jobs = 8\naccount = 100000\n[[queue]]\nname = \"lp\"\nlimit = 3\nprinters = 1\n%%\nfree\n";

/// What `docs/example.toml` says, without its remarks.
pub const EXAMPLE: &[u8] = b"\
pages = 1024
page_size = 65536
max_jobs = 64
account = 2600000
[[queue]]
name = \"lp\"
limit = 128
printers = 1
[[queue]]
name = \"plotter\"
limit = 256
printers = 2
";

/// Queues whose names have points, or are digits: `a.2` is the second printer of the first one and the first of the second.
pub const POINTS: &[u8] = b"pages = 4\npage_size = 8\nmax_jobs = 8\naccount = 100000\n\
      [[queue]]\nname = \"a\"\nlimit = 3\nprinters = 2\n\
      [[queue]]\nname = \"a.2\"\nlimit = 3\nprinters = 1\n\
      [[queue]]\nname = \"7\"\nlimit = 3\nprinters = 1\n";

/// Two queues that say what their first printers print to.
pub const PLACED: &[u8] = b"pages = 4\npage_size = 8\nmax_jobs = 8\naccount = 100000\n\
      [[queue]]\nname = \"lp\"\nlimit = 3\nprinters = 1\nplaces = [\"socket://10.0.0.9\"]\n\
      [[queue]]\nname = \"plotter\"\nlimit = 3\nprinters = 2\nplaces = [\"folder:jobs\"]\n";

/// An account with room for fifty jobs of the first queue; for fifty of the second but for the entry of the close, so for 49; and for
/// none of the third.
pub const FEW: &[u8] = b"pages = 2600\npage_size = 8\nmax_jobs = 8\naccount = 515600\n\
      [[queue]]\nname = \"fifty\"\nlimit = 50\nprinters = 1\n\
      [[queue]]\nname = \"few\"\nlimit = 51\nprinters = 1\n\
      [[queue]]\nname = \"none\"\nlimit = 2600\nprinters = 1\n";

/// Blocks of lines: the words behind the program's name, a comma between two; the input, which `FILE` has too, but for what stands behind a
/// line `%%`, which `SCRIPT` has; and what is told, with the exit status in a line, or how a server is to run, or which command it is sent. The
/// input is a name of `input_of`, or has the escapes of `test_kit::rows`; `-` is none.
///
/// A configuration is a script of bad lines, and a script is no configuration. A file that can't be read comes before a fault of the
/// configuration.
pub const TOLD: &str = r##"
SCRIPT
free 4
status 0
====

CONFIG
status 0
====
check,FILE
CONFIG
ok pages 4 page_size 8 queues 1 printers 1
status 0
====
check,FILE
EXAMPLE
ok pages 1024 page_size 65536 queues 2 printers 3
status 0
====
check,FILE,--sizes
EXAMPLE
ok pages 1024 page_size 65536 queues 2 printers 3
queue lp jobs 101
queue lp held 75
queue plotter jobs 50
queue plotter held 38
status 0
====
check,--sizes,FILE
FEW
ok pages 2600 page_size 8 queues 3 printers 3
queue fifty jobs 50
queue fifty held 38
queue few jobs 49, too few: a larger account or larger pages make room
queue few held 37
queue none jobs 0, too few: a larger account or larger pages make room
queue none held 0
status 2
====
check,FILE,--printer,2=socket://10.0.0.9:65535,--printer,1=folder:jobs
EXAMPLE
ok pages 1024 page_size 65536 queues 2 printers 3
printer 1 lp folder:jobs
printer 2 plotter socket://10.0.0.9:65535
printer 3 plotter DIR/printer-3
status 0
====
check,FILE,--sizes,--printer,3=file:/dev/usb/lp0
EXAMPLE
ok pages 1024 page_size 65536 queues 2 printers 3
queue lp jobs 101
queue lp held 75
queue plotter jobs 50
queue plotter held 38
printer 1 lp DIR/printer-1
printer 2 plotter DIR/printer-2
printer 3 plotter file:/dev/usb/lp0
status 0
====
check,FILE,--printer,1=file:x,--printer,9=socket://10.0.0.9:0515,--printer,8=file:x
EXAMPLE
printer 9 isn't there: 9=socket://10.0.0.9:515
status 1
====
check,FILE,--printer,1=folder:/tmp,--printer,3=folder:/tmp/
EXAMPLE
ok pages 1024 page_size 65536 queues 2 printers 3
printer 1 lp folder:/tmp
printer 2 plotter DIR/printer-2
printer 3 plotter folder:/tmp/
fault 73 WriteFile /tmp/
status 4
====
check,FILE,--printer,9=file:x
pages = 0\n
fault 53 OutOfRange pages
status 2
====
check,FILE,--printer,lp=file:x,--printer,plotter.2=folder:jobs
EXAMPLE
ok pages 1024 page_size 65536 queues 2 printers 3
printer 1 lp file:x
printer 2 plotter DIR/printer-2
printer 3 plotter folder:jobs
status 0
====
check,FILE,--printer,plotter=file:x,--out,/
EXAMPLE
ok pages 1024 page_size 65536 queues 2 printers 3
printer 1 lp //printer-1
printer 2 plotter file:x
printer 3 plotter //printer-3
out / is there
status 0
====
check,FILE,--printer,plotter.3=file:x
EXAMPLE
printer plotter.3 isn't there: plotter.3=file:x
status 1
====
check,FILE,--printer,+1=file:x
EXAMPLE
printer +1 isn't there: +1=file:x
status 1
====
check,FILE,--printer,lp=file:x,--printer,1=file:y
EXAMPLE
'1=file:y' is a second PLACE for its printer
status 1
====
check,FILE,--printer,7=file:x
POINTS
printer 7 isn't there: 7=file:x
status 1
====
check,FILE,--printer,7.1=file:x,--printer,a.1=file:y
POINTS
ok pages 4 page_size 8 queues 3 printers 4
printer 1 a file:y
printer 2 a DIR/printer-2
printer 3 a.2 DIR/printer-3
printer 4 7 file:x
status 0
====
check,FILE,--printer,a.2=file:x
POINTS
printer a.2 may be one of two: a.2=file:x
status 1
====
check,FILE
PLACED
ok pages 4 page_size 8 queues 2 printers 3
printer 1 lp socket://10.0.0.9:9100
printer 2 plotter folder:jobs
printer 3 plotter DIR/printer-3
status 0
====
check,FILE,--printer,plotter.2=file:x
PLACED
ok pages 4 page_size 8 queues 2 printers 3
printer 1 lp socket://10.0.0.9:9100
printer 2 plotter folder:jobs
printer 3 plotter file:x
status 0
====
check,FILE,--printer,lp=file:x
PLACED
'lp=file:x' is a second PLACE for its printer
status 1
====
check,FILE
pages = 4\npage_size = 8\nmax_jobs = 8\naccount = 100000\n[[queue]]\nname = "lp"\nlimit = 3\nprinters = 1\nplaces = "file:x"\n
fault 52 WrongType queue.places
status 2
====
check,FILE
pages = 4\npage_size = 8\nmax_jobs = 8\naccount = 100000\n[[queue]]\nname = "lp"\nlimit = 3\nprinters = 1\nplaces = [1]\n
fault 52 WrongType queue.places
status 2
====
check,FILE
pages = 4\npage_size = 8\nmax_jobs = 8\naccount = 100000\n[[queue]]\nname = "lp"\nlimit = 3\nprinters = 1\nplaces = ["file:"]\n
fault 53 OutOfRange queue.places
status 2
====
check,FILE
pages = 4\npage_size = 8\nmax_jobs = 8\naccount = 100000\n[[queue]]\nname = "lp"\nlimit = 3\nprinters = 1\nplaces = ["file:x", "file:y"]\n
fault 53 OutOfRange queue.places
status 2
====
check,FILE,--spool,/no-folder-is-here
CONFIG
ok pages 4 page_size 8 queues 1 printers 1
spool /no-folder-is-here will be made
status 0
====
check,FILE,--sizes,--spool=no-folder-is-here//,--printer,1=file:x
CONFIG
ok pages 4 page_size 8 queues 1 printers 1
queue lp jobs 140
queue lp held 105
printer 1 lp file:x
spool no-folder-is-here// will be made
status 0
====
check,FILE,--spool,/
CONFIG
ok pages 4 page_size 8 queues 1 printers 1
spool / waiting 0 failed 0
status 0
====
check,FILE,--spool,/there/is/no/such/folder
CONFIG
ok pages 4 page_size 8 queues 1 printers 1
fault 73 WriteFile /there/is/no/such/folder
status 4
====
check,FILE,--spool,/,--out,/,--control,/no-socket-is-here
CONFIG
ok pages 4 page_size 8 queues 1 printers 1
out / is there
control /no-socket-is-here will be made
spool / waiting 0 failed 0
status 0
====
check,FILE,--account,/no-account-is-here,--spool,/
CONFIG
ok pages 4 page_size 8 queues 1 printers 1
spool / waiting 0 failed 0
account /no-account-is-here will be made
status 0
====
check,FILE,--account,/
CONFIG
ok pages 4 page_size 8 queues 1 printers 1
account / segments 0
status 0
====
check,FILE,--account,/there/is/no/such/folder
CONFIG
ok pages 4 page_size 8 queues 1 printers 1
fault 73 WriteFile /there/is/no/such/folder
status 4
====
check,FILE,--control=no-socket-is-here,--printer,1=file:x
CONFIG
ok pages 4 page_size 8 queues 1 printers 1
printer 1 lp file:x
control no-socket-is-here will be made
status 0
====
check,FILE,--out,/there/is/no/such/folder,--spool,/
CONFIG
ok pages 4 page_size 8 queues 1 printers 1
fault 73 WriteFile /there/is/no/such/folder
status 4
====
check,FILE,--out,/dev/null
CONFIG
ok pages 4 page_size 8 queues 1 printers 1
fault 73 WriteFile /dev/null
status 4
====
check,FILE,--control,/there/is/no/such/folder
CONFIG
ok pages 4 page_size 8 queues 1 printers 1
fault 72 Network /there/is/no/such/folder
status 4
====
check,FILE,--out,/,--control,/dev/null
CONFIG
ok pages 4 page_size 8 queues 1 printers 1
out / is there
fault 72 Network /dev/null
status 4
====
check,FILE
pages = 0\n
fault 53 OutOfRange pages
status 2
====
check,/there/is/no/such/file
-
fault 71 ReadFile
status 4
====
replay,FILE,FILE
CONFIG
fault 70 BadScript 1
status 3
====
replay,FILE,FILE
free\n
fault 50 NotToml
status 2
====
replay,FILE,/there/is/no/such/file
free\n
fault 71 ReadFile
status 4
====
replay,FILE,FILE
# nothing is done for the lines of this file\n
fault 51 Missing pages
status 2
====
replay,FILE,SCRIPT
SCRIPT
free 4
status 0
====
serve,spool.toml,--port,515
-
serves spool.toml 515 127.0.0.1 . 8 None None None None None 5 5 1000 false [] [] None [] None None None None None Plain false None None
====
serve,--port=65535,--bind,10.0.200.255,--out,pages,--sessions,64,--connections,3,--rotate,4294967295,--silence,60,--per-host,4,--slowest,100,--keep-room,--allow,10.0.0.0/8,--allow,192.168.1.7,spool.toml
-
serves spool.toml 65535 10.0.200.255 pages 64 Some(3) Some(4294967295) Some(60) Some(4) Some(100) 5 5 1000 true [Network { address: 10.0.0.0, bits: 8 }, Network { address: 192.168.1.7, bits: 32 }] [] None [] None None None None None Plain false None None
====
serve,a,--port,1
free\n
serves a 1 127.0.0.1 . 8 None None None None None 5 5 1000 false [] [] None [] None None None None None Plain false None None
====
serve,a,--port,1,--proxied,127.0.0.1,--allow,10.0.0.0/8,--proxied=192.0.2.8/30
-
serves a 1 127.0.0.1 . 8 None None None None None 5 5 1000 false [Network { address: 10.0.0.0, bits: 8 }] [Network { address: 127.0.0.1, bits: 32 }, Network { address: 192.0.2.8, bits: 30 }] None [] None None None None None Plain false None None
====
serve,a,--port,1,--control,run/spool.control
-
serves a 1 127.0.0.1 . 8 None None None None None 5 5 1000 false [] [] Some("run/spool.control") [] None None None None None Plain false None None
====
serve,a,--port,1,--printer,2=folder:jobs/a=b,--patience,10,--printer-silence,4294967295,--restart,1,--printer=1=socket://10.0.0.9,--printer,4294967295=socket://255.255.255.255:1,--printer,10=file:/dev/lp0
-
serves a 1 127.0.0.1 . 8 None None None None None 5 5 1000 false [] [] None [NamedPrinter { name: "2", place: Folder("jobs/a=b") }, NamedPrinter { name: "1", place: Socket(10.0.0.9:9100) }, NamedPrinter { name: "4294967295", place: Socket(255.255.255.255:1) }, NamedPrinter { name: "10", place: File("/dev/lp0") }] Some(10) Some(4294967295) Some(1) None None Plain false None None
====
serve,a,--port,1,--spool,/var/spool/jobs
-
serves a 1 127.0.0.1 . 8 None None None None None 5 5 1000 false [] [] None [] None None None Some("/var/spool/jobs") None Plain false None None
====
serve,a,--port,1,--account,account,--spool,jobs
-
serves a 1 127.0.0.1 . 8 None None None None None 5 5 1000 false [] [] None [] None None None Some("jobs") Some("account") Plain false None None
====
serve,a,--port,1,--log,journal,--log-jobs
-
serves a 1 127.0.0.1 . 8 None None None None None 5 5 1000 false [] [] None [] None None None None None Journal true None None
====
serve,a,--port,1,--parts
-
serves a 1 127.0.0.1 . 8 None None None None None 5 5 1000 false [] [] None [] None None None None None Plain false None None parts
====
serve,a,--port,1,--log=time
-
serves a 1 127.0.0.1 . 8 None None None None None 5 5 1000 false [] [] None [] None None None None None Time false None None
====
serve,a,--port,1,--status,631
-
serves a 1 127.0.0.1 . 8 None None None None None 5 5 1000 false [] [] None [] None None None None None Plain false Some(StatusPlace { address: 127.0.0.1, port: 631 }) None
====
serve,a,--port,1,--status-host,Spool-1.example,--status=0.0.0.0:65535
-
serves a 1 127.0.0.1 . 8 None None None None None 5 5 1000 false [] [] None [] None None None None None Plain false Some(StatusPlace { address: 0.0.0.0, port: 65535 }) Some("Spool-1.example")
====
send,515,lp,1,h1,ann,FILE
-
fault 71 ReadFile
status 4
====
control,spool.control,status
free\n
controls spool.control status
====
control,spool.control,remove,lp,ann
-
controls spool.control remove lp ann
====
control,spool.control,--,remove,lp,-a b
-
controls spool.control remove lp -a b
====
audit,segment-1,segment-2
-
audits AuditRequest { files: ["segment-1", "segment-2"], after: None, ends: None, printed: [], taken: [], progress: false }
====
audit,--printed,pages,a,--printed=3=/srv/x,--taken,3,--taken=2,--after,0000000000000000000000000000000000000000000000000000000000000001,--progress,--ends=FF00000000000000000000000000000000000000000000000000000000000000
-
audits AuditRequest { files: ["a"], after: Some([0, 0, 0, 0, 0, 0, 0, 0, 0, 0, 0, 0, 0, 0, 0, 0, 0, 0, 0, 0, 0, 0, 0, 0, 0, 0, 0, 0, 0, 0, 0, 1]), ends: Some([255, 0, 0, 0, 0, 0, 0, 0, 0, 0, 0, 0, 0, 0, 0, 0, 0, 0, 0, 0, 0, 0, 0, 0, 0, 0, 0, 0, 0, 0, 0, 0]), printed: ["pages", "3=/srv/x"], taken: ["3", "2"], progress: true }
====
usage,a
-
uses UsageRequest { files: ["a"], by: User, since: None, until: None, csv: false }
====
usage,--by,queue,--since=2026-11-26T22:00:00Z,a,b,--until,2026-11-27T22:00:00Z,--csv
-
uses UsageRequest { files: ["a", "b"], by: Queue, since: Some("2026-11-26T22:00:00Z"), until: Some("2026-11-27T22:00:00Z"), csv: true }
====
control,spool.control,stop,60
-
controls spool.control stop 60
====
control,bbbbbbbbbbbbbbbbbbbbbbbbbbbbbbbbbbbbbbbbbbbbbbbbbbbbbbbbbbbbbbbbbbbbbbbbbbbbbbbbbbbbbbbbbbbbbbbbbbbbbbbbbbb,stop now
-
controls bbbbbbbbbbbbbbbbbbbbbbbbbbbbbbbbbbbbbbbbbbbbbbbbbbbbbbbbbbbbbbbbbbbbbbbbbbbbbbbbbbbbbbbbbbbbbbbbbbbbbbbbbbb stop now
"##;

/// Words that are refused, with an error and the exit status 1.
pub const BAD: &str = "
spool,spool.toml
check
check,a,b
check,a,--out
check,a,--control,aaaaaaaaaaaaaaaaaaaaaaaaaaaaaaaaaaaaaaaaaaaaaaaaaaaaaaaaaaaaaaaaaaaaaaaaaaaaaaaaaaaaaaaaaaaaaaaaaaaaaaaaaaaa
replay,a
send,0,lp,1,h1,ann,a
send,65536,lp,1,h1,ann,a
send,515,lp,1000,h1,ann,a
send,515,l p,1,h1,ann,a
send,515,lp,1,h 1,ann,a
send,515,lp,1,h1,,a
send,515,lp,1,h1,ann
send,515,lp,1,h1,ann,a,--server
send,515,lp,1,h1,ann,a,--server,localhost
send,515,lp,1,h1,ann,a,--server,10.0.0.256
send,515,lp,1,h1,ann,a,--server,::1
send,515,lp,1,h1,ann,a,--server,10.0.0.5,--server,10.0.0.6
send,515,lp,1,h1,ann,a,a,a,a,a,a,a,a,a,a,a,a,a,a,a,a,a,a,a,a,a,a,a,a,a,a,a,a,a,a,a,a,a,a,a,a,a,a,a,a,a,a,a,a,a,a,a,a,a,a,a,a,a
state
state,515
state,0,lp
state,65536,lp
state,lp,515
state,515,
state,515,l p
state,515,lp,a b
state,515,lp,ann,
state,515,lp,--long=yes
state,515,lp,--agent,ann
state,515,lp,--server
state,515,lp,--server,localhost
state,515,lp,--server,127.0.0.256
remove
remove,515,lp
remove,0,lp,ann
remove,515,lp,
remove,515,l p,ann
remove,515,lp,a b
remove,515,lp,ann,3 4
remove,515,lp,ann,--long
remove,515,lp,ann,--server,10.0.0
start
start,515
start,0,lp
start,515,l p
start,515,lp,ann
start,515,lp,--long
start,515,lp,--server,10.0.0.5:515
serve,a,--port,1,--log,Time
serve,a,--port,1,--log,
serve,a,--port,1,--log,time,--log,time
serve,a,--port,1,--log-jobs=yes
serve,a,--port,1,--status,0
serve,a,--port,1,--status,65536
serve,a,--port,1,--status,+631
serve,a,--port,1,--status,0631
serve,a,--port,1,--status,http
serve,a,--port,1,--status,localhost:631
serve,a,--port,1,--status,127.0.0.1
serve,a,--port,1,--status,127.0.0.1:0
serve,a,--port,1,--status,127.0.0.1:65536
serve,a,--port,1,--status,
serve,a,--port,1,--status,631,--status,632
serve,a,--port,1,--status-host,spool.example
serve,a,--port,1,--status,631,--status-host,spool_1
serve,a,--port,1,--status,631,--status-host,spool.example:631
serve,a,--port,1,--status,631,--status-host,
serve,spool.toml
serve,--port,515
serve,a,b,--port,515
serve,a,--port,0
serve,a,--port,65536
serve,a,--port,515,--port,516
serve,a,--port,515,--bind,localhost
serve,a,--port,515,--bind,127.0.0.256
serve,a,--port,515,--bind,127.0.0
serve,a,--port,515,--sessions,0
serve,a,--port,515,--sessions,65
serve,a,--port,515,--connections,0
serve,a,--port,515,--rotate,4294967296
serve,a,--port,515,--silence,long
serve,a,--port,515,--per-host,0
serve,a,--port,515,--keep-room,yes
serve,a,--port,515,--allow,10.0.0.0/33
serve,a,--port,515,--allow,10.0.0.0/08
serve,a,--port,515,--allow,10.0.0.0/+8
serve,a,--port,515,--allow,10.0.0.1/8
serve,a,--port,515,--allow,256.0.0.0/8
serve,a,--port,515,--allow,010.0.0.0/8
serve,a,--port,515,--allow,10.0.0.0/8/8
serve,a,--port,515,--allow,10.0.0.0/8,--allow,localhost
serve,a,--port,515,--allow,10.0.0/8
serve,a,--port,515,--allow,10.0.0.0/
serve,a,--port,515,--allow
serve,a,--port,515,--proxied
serve,a,--port,515,--proxied,192.0.2.9/30
serve,a,--port,515,--proxied,proxy.example
serve,a,--port,515,--allow,10.0.0.0/8,--proxied,10.0.0.0/33
check,a,--proxied,10.0.0.1
serve,a,--port,515,--printer
serve,a,--port,515,--printer,1
serve,a,--port,515,--printer,1=
serve,a,--port,515,--printer,file:x
serve,a,--port,515,--printer,=file:x
serve,a,--port,515,--printer,1=x
serve,a,--port,515,--printer,1=FILE:x
serve,a,--port,515,--printer,1=file:
serve,a,--port,515,--printer,1=folder:
serve,a,--port,515,--printer,0=file:x
serve,a,--port,515,--printer,007=file:x
serve,a,--port,515,--printer,4294967296=file:x
serve,a,--port,515,--printer,1=socket://
serve,a,--port,515,--printer,1=socket:10.0.0.9
serve,a,--port,515,--printer,1=socket://printer
serve,a,--port,515,--printer,1=socket://10.0.0.256
serve,a,--port,515,--printer,1=socket://10.0.0.9:
serve,a,--port,515,--printer,1=socket://10.0.0.9:0
serve,a,--port,515,--printer,1=socket://10.0.0.9:65536
serve,a,--port,515,--printer,1=socket://10.0.0.9:9100/
serve,a,--port,515,--printer,1=socket://[::1]:9100
serve,a,--port,515,--printer,1=file:x,--printer,2=file:x,--printer,1=file:x
serve,a,--port,515,--patience,0
serve,a,--port,515,--printer-silence,soon
serve,a,--port,515,--restart,4294967296
check,FILE,--printer,1=file:
check,FILE,--printer,1=file:x,--printer,1=folder:x
check,FILE,--restart,1
check,FILE,--account
check,FILE,--account,a,--account,b
check,FILE,--spool
check,FILE,--spool,a,--spool,b
serve,a,--port,515,--quiet
serve,a,--port,515,--account
serve,a,--port,515,--account,a,--account,b
serve,a,--port,515,--spool
serve,a,--port,515,--spool,a,--spool,b
serve,a,--port,515,--control
serve,a,--port,515,--control,a,--control,b
serve,a,--port,515,--control,aaaaaaaaaaaaaaaaaaaaaaaaaaaaaaaaaaaaaaaaaaaaaaaaaaaaaaaaaaaaaaaaaaaaaaaaaaaaaaaaaaaaaaaaaaaaaaaaaaaaaaaaaaaa
control
control,a
control,a,lpq
control,a,status,lp
control,a,start
control,a,start,l p
control,a,remove,lp
control,a,stop,060
control,a,stop,soon
control,a,stop,4294967296
control,aaaaaaaaaaaaaaaaaaaaaaaaaaaaaaaaaaaaaaaaaaaaaaaaaaaaaaaaaaaaaaaaaaaaaaaaaaaaaaaaaaaaaaaaaaaaaaaaaaaaaaaaaaaa,status
audit
audit,a,--ends,12
audit,a,--after,x00000000000000000000000000000000000000000000000000000000000000f
usage,a,--by,printer
audit,a,--taken,0
audit,a,--taken,x
usage,a,--since,yesterday
usage,a,--since,2026-02-30T22:00:00Z
usage,a,--until,2026-11-26 22:00:00
";
