// What the commands are, and how the program is started.
use desk::say;
use desk::say::Page;

// One line on what this is, for a person at a terminal.
pub(crate) fn greet(rt: &impl Print, page: Page) -> Page {
    let a = say::put(
        rt,
        page,
        b"Moortinker: one command a line, answered by the proved library.\n",
    );
    commands(rt, a)
}

// How the program is started, and then the commands.
pub(crate) fn usage(rt: &impl Print, page: Page) -> Page {
    let a = say::put(
        rt,
        page,
        b"usage
  moortinker            obey the commands on standard input, one a line
  moortinker capture FILE [--refused] [--summary]
                        report a capture; FILE - is standard input
  moortinker --help     say this (or: -h, help)
",
    );
    commands(rt, a)
}

pub(crate) fn commands(rt: &impl Print, page: Page) -> Page {
    say::put(
        rt,
        page,
        b"commands
  HEX                   any number of bytes, two hex digits each; blanks, or one : or ,
                        between bytes and 0x before them are taken
  BYTE                  one or two hex digits, 0x before them or not
  WORD, SERIAL          one to four hex digits, one to eight
  NUM                   a decimal number, or a hexadecimal one with 0x
  TEXT                  the rest of the line as it stands
  # ...                 a comment: a line of its own, or behind a blank at the end of
                        a command that takes no TEXT
  help, ?               what the commands are
  quit, exit            end the program
  echo on               repeat each command before its answer (or: off)
  explain NUM           what the number of a refusal means, and where its place points
  room NUM              lend outputs of NUM bytes or entries, 0 to 8192
  room                  lend outputs of full size again
  ebus-check HEX        check byte of logical bytes
  expand HEX            logical bytes as they go on the wire
  undo HEX              raw bytes with their escapes undone
  kind BYTE             kind of an exchange with this destination
  judge HEX             judge a recorded exchange
  listen                start listening to an exchange
  feed HEX              feed the next run of its bytes
  close                 end it: what judge says of the bytes used
  write-command BYTE BYTE BYTE BYTE HEX
                        write a command: SRC DST PB SB data
  write-reply HEX       write a reply with this data
  modbus-check HEX      Modbus check, low byte first
  read-request HEX      read a scan request
  read-answer HEX       read an answer to one
  write-request start   write a scan request (or: continue)
  write-found SERIAL BYTE
                        write the answer of a device
  write-end             write the answer that ends a scan
  device SERIAL BYTE NUM
                        add a device: serial, address, mark
  forget                empty the table
  table                 show the table
  start, continue       send a scan request to the devices
  offer HEX             offer them a raw frame
  scan NUM              scan the whole table, NUM requests at most
  event BYTE urgent BYTE WORD HEX
                        queue an event (or: normal) for a device, by its id:
                        type, identifier, data
  stored NUM NUM NUM NUM
                        set a row, from 0 on: flag, last packet, events queued
  queues                show the queues
  poll BYTE BYTE BYTE BYTE
                        poll for events: minimum, length, id confirmed, flag
  offer-poll HEX        offer the devices a raw poll
  read-poll HEX         read a poll
  write-poll BYTE BYTE BYTE BYTE
                        write a poll
  write-no-events       write the answer that nobody has events
  read-events HEX       read the answer to a poll
  read-railbus TEXT     read a Railbus packet, the rest of the line
  read-railbus-hex HEX  read one from any bytes
  write-railbus R BYTE BYTE
                        write a packet: letter, address, register; and behind
                        W, K, I, n its data, a SERIAL
  relay BYTE            a fresh relay device with this address
  register BYTE SERIAL NUM
                        set a register of it: value, access byte
  offer-railbus TEXT    offer it a packet
  offer-railbus-hex HEX offer it any bytes
  finish                the write that runs has finished
  registers             show the remembered write and the registers
",
    )
}
