// Writing a braking book: for each class the emergency records, from rising and to rising, then the service records, from rising.
ghost use Rattle.std.specs.Prelude.{◌≡◌, length, OnOk};
ghost use Rattle.bookrecords.specs.Files.{Means};
ghost use Rattle.bookwriter.specs.Writing.{file_of, asked, row, emergencies_of, services_of, of_class, HasRoom, Writes, Written, Alone};

use super::records::{Writer, emergency_record, service_record};
use books::BrakingBook;
use codes::{Class, Code, Refusal, Speed};

// How many bytes a written book takes: 477 for each of the eleven classes.
pub const FILE_SIZE: usize = 5247;

// Writes the record of an emergency figure; a `to` that is not below `from` has no figure, and so no record.
fn write_emergency<B: BrakingBook>(
    writer: &mut Writer<'_>,
    book: &B,
    class: Class,
    from: Speed,
    to: Code,
)
    requires { HasRoom (B.BrakingBook.emergencies book.now) (B.BrakingBook.services book.now) writer.old (asked class from to) }
    ensures { Writes (B.BrakingBook.emergencies book.now) (B.BrakingBook.services book.now) writer.old (asked class from to) writer.new }
{
    if let Ok(metres) = book.emergency(class, from, to) {
        writer.put(&emergency_record(class, from, to, metres));
    }
}

// Writes the emergency records from one speed.
fn write_row<B: BrakingBook>(writer: &mut Writer<'_>, book: &B, class: Class, from: Speed)
    requires { HasRoom (B.BrakingBook.emergencies book.now) (B.BrakingBook.services book.now) writer.old (row class from) }
    ensures { Writes (B.BrakingBook.emergencies book.now) (B.BrakingBook.services book.now) writer.old (row class from) writer.new }
{
    for to in Code::ALL {
        write_emergency(writer, book, class, from, to);
    }
}

// Writes the emergency records of a class.
fn write_emergencies<B: BrakingBook>(writer: &mut Writer<'_>, book: &B, class: Class)
    requires { HasRoom (B.BrakingBook.emergencies book.now) (B.BrakingBook.services book.now) writer.old (emergencies_of class) }
    ensures { Writes (B.BrakingBook.emergencies book.now) (B.BrakingBook.services book.now) writer.old (emergencies_of class) writer.new }
{
    for from in Speed::ALL {
        write_row(writer, book, class, from);
    }
}

// Writes the service records of a class.
fn write_services<B: BrakingBook>(writer: &mut Writer<'_>, book: &B, class: Class)
    requires { HasRoom (B.BrakingBook.emergencies book.now) (B.BrakingBook.services book.now) writer.old (services_of class) }
    ensures { Writes (B.BrakingBook.emergencies book.now) (B.BrakingBook.services book.now) writer.old (services_of class) writer.new }
{
    for from in Speed::ALL {
        writer.put(&service_record(class, from, book.service(class, from)));
    }
}

// Writes the records of a class: the emergency records, and behind them the service records.
fn write_class<B: BrakingBook>(writer: &mut Writer<'_>, book: &B, class: Class)
    requires { HasRoom (B.BrakingBook.emergencies book.now) (B.BrakingBook.services book.now) writer.old (of_class class) }
    ensures { Writes (B.BrakingBook.emergencies book.now) (B.BrakingBook.services book.now) writer.old (of_class class) writer.new }
{
    write_emergencies(writer, book, class);
    write_services(writer, book, class);
}

// Writes the records of all classes.
fn write_classes<B: BrakingBook>(book: &B, buffer: &mut [u8])
    requires { length buffer.old ≡ 5247 }
    ensures { buffer.new ≡ file_of (B.BrakingBook.emergencies book.now) (B.BrakingBook.services book.now) }
{
    let mut writer = Writer::new(buffer);
    for class in Class::ALL {
        write_class(&mut writer, book, class);
    }
}

// Writes the book's file into a buffer of 5,247 bytes; a buffer of another size is refused by 10 and left as it was. The file is
// that of this book, and every book whose file it is has the same figures.
pub fn write<B: BrakingBook>(book: &B, buffer: &mut [u8]) -> Result<(), Refusal>
    ensures written { Written buffer.old (B.BrakingBook.emergencies book.now) (B.BrakingBook.services book.now) result buffer.new }
    ensures means { OnOk result (Means buffer.new (B.BrakingBook.emergencies book.now) (B.BrakingBook.services book.now)) }
    ensures back { OnOk result (Alone buffer.new (B.BrakingBook.emergencies book.now) (B.BrakingBook.services book.now)) }
{
    if buffer.len() != FILE_SIZE {
        return Err(Refusal::Size);
    }
    write_classes(book, buffer);
    Ok(())
}
