// A format filled in, on a page.
#![tactic(auto)]

ghost use Rattle.std.specs.Prelude.{◌≤◌, length};
ghost use Rattle.text_decimals.specs.Written.{HasRoom, Written};
ghost use Rattle.text_formats.specs.Format.{filled, marks, natural_mark, number_mark, room};

use text_decimals::Page;

pub fn print(page: &mut Page<'_>, format: &[u8], naturals: &[u64], numbers: &[i32])
    requires naturals_enough { marks natural_mark format.now ≤ length naturals.now }
    requires numbers_enough { marks number_mark format.now ≤ length numbers.now }
    requires room_enough { HasRoom page.old (room format.now) }
    ensures { Written page.old page.new (filled format.now naturals.now numbers.now) (room format.now) }
{
    let [first, rest @ ..] = format else {
        return;
    };
    match first {
        b'@' => {
            page.natural(naturals[0]);
            print(page, rest, &naturals[1..], numbers);
        }
        b'#' => {
            page.number(numbers[0]);
            print(page, rest, naturals, &numbers[1..]);
        }
        _ => {
            page.byte(*first);
            print(page, rest, naturals, numbers);
        }
    }
}
