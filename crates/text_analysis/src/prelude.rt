//! The names that every text has at hand, as a signature.
ghost use Rattle.std.specs.Prelude.{◌≡◌};
ghost use Rattle.typing_model.specs.PreludeText.{prelude_text};

/// The text of the prelude; its lines are counted from 1.
pub const PRELUDE: &str = "\
type 'a option = None | Some of 'a\n\
type 'a ref = { mutable contents : 'a }\n\
type ('a, 'b) result = Ok of 'a | Error of 'b\n\
exception Not_found\n\
exception Exit\n\
exception End_of_file\n\
exception Division_by_zero\n\
exception Failure of string\n\
exception Invalid_argument of string\n\
val raise : exn -> 'a\n\
val failwith : string -> 'a\n\
val invalid_arg : string -> 'a\n\
val ( = ) : 'a -> 'a -> bool\n\
val ( <> ) : 'a -> 'a -> bool\n\
val ( < ) : 'a -> 'a -> bool\n\
val ( > ) : 'a -> 'a -> bool\n\
val ( <= ) : 'a -> 'a -> bool\n\
val ( >= ) : 'a -> 'a -> bool\n\
val ( == ) : 'a -> 'a -> bool\n\
val ( != ) : 'a -> 'a -> bool\n\
val compare : 'a -> 'a -> int\n\
val min : 'a -> 'a -> 'a\n\
val max : 'a -> 'a -> 'a\n\
val not : bool -> bool\n\
val ( && ) : bool -> bool -> bool\n\
val ( || ) : bool -> bool -> bool\n\
val ( ~- ) : int -> int\n\
val ( + ) : int -> int -> int\n\
val ( - ) : int -> int -> int\n\
val ( * ) : int -> int -> int\n\
val ( / ) : int -> int -> int\n\
val ( mod ) : int -> int -> int\n\
val ( land ) : int -> int -> int\n\
val ( lor ) : int -> int -> int\n\
val ( lxor ) : int -> int -> int\n\
val ( lsl ) : int -> int -> int\n\
val ( lsr ) : int -> int -> int\n\
val ( asr ) : int -> int -> int\n\
val abs : int -> int\n\
val succ : int -> int\n\
val pred : int -> int\n\
val max_int : int\n\
val min_int : int\n\
val ( ~-. ) : float -> float\n\
val ( +. ) : float -> float -> float\n\
val ( -. ) : float -> float -> float\n\
val ( *. ) : float -> float -> float\n\
val ( /. ) : float -> float -> float\n\
val ( ** ) : float -> float -> float\n\
val float_of_int : int -> float\n\
val int_of_float : float -> int\n\
val sqrt : float -> float\n\
val ( ^ ) : string -> string -> string\n\
val string_of_int : int -> string\n\
val string_of_bool : bool -> string\n\
val string_of_float : float -> string\n\
val int_of_string : string -> int\n\
val char_of_int : int -> char\n\
val int_of_char : char -> int\n\
val ignore : 'a -> unit\n\
val fst : 'a * 'b -> 'a\n\
val snd : 'a * 'b -> 'b\n\
val ( @ ) : 'a list -> 'a list -> 'a list\n\
val ( |> ) : 'a -> ('a -> 'b) -> 'b\n\
val ( @@ ) : ('a -> 'b) -> 'a -> 'b\n\
val ref : 'a -> 'a ref\n\
val ( ! ) : 'a ref -> 'a\n\
val ( := ) : 'a ref -> 'a -> unit\n\
val incr : int ref -> unit\n\
val decr : int ref -> unit\n\
val print_char : char -> unit\n\
val print_string : string -> unit\n\
val print_int : int -> unit\n\
val print_endline : string -> unit\n\
val print_newline : unit -> unit\n\
val read_line : unit -> string\n\
val exit : int -> 'a\n\
module List : sig\n\
\x20\x20val length : 'a list -> int\n\
\x20\x20val hd : 'a list -> 'a\n\
\x20\x20val tl : 'a list -> 'a list\n\
\x20\x20val nth : 'a list -> int -> 'a\n\
\x20\x20val rev : 'a list -> 'a list\n\
\x20\x20val append : 'a list -> 'a list -> 'a list\n\
\x20\x20val concat : 'a list list -> 'a list\n\
\x20\x20val iter : ('a -> unit) -> 'a list -> unit\n\
\x20\x20val map : ('a -> 'b) -> 'a list -> 'b list\n\
\x20\x20val mapi : (int -> 'a -> 'b) -> 'a list -> 'b list\n\
\x20\x20val fold_left : ('a -> 'b -> 'a) -> 'a -> 'b list -> 'a\n\
\x20\x20val fold_right : ('a -> 'b -> 'b) -> 'a list -> 'b -> 'b\n\
\x20\x20val exists : ('a -> bool) -> 'a list -> bool\n\
\x20\x20val for_all : ('a -> bool) -> 'a list -> bool\n\
\x20\x20val mem : 'a -> 'a list -> bool\n\
\x20\x20val find : ('a -> bool) -> 'a list -> 'a\n\
\x20\x20val filter : ('a -> bool) -> 'a list -> 'a list\n\
\x20\x20val assoc : 'a -> ('a * 'b) list -> 'b\n\
\x20\x20val combine : 'a list -> 'b list -> ('a * 'b) list\n\
\x20\x20val split : ('a * 'b) list -> 'a list * 'b list\n\
\x20\x20val sort : ('a -> 'a -> int) -> 'a list -> 'a list\n\
end\n\
module Option : sig\n\
\x20\x20val get : 'a option -> 'a\n\
\x20\x20val bind : 'a option -> ('a -> 'b option) -> 'b option\n\
\x20\x20val map : ('a -> 'b) -> 'a option -> 'b option\n\
\x20\x20val iter : ('a -> unit) -> 'a option -> unit\n\
\x20\x20val is_none : 'a option -> bool\n\
\x20\x20val is_some : 'a option -> bool\n\
end\n\
module String : sig\n\
\x20\x20val length : string -> int\n\
\x20\x20val get : string -> int -> char\n\
\x20\x20val make : int -> char -> string\n\
\x20\x20val sub : string -> int -> int -> string\n\
\x20\x20val concat : string -> string list -> string\n\
\x20\x20val compare : string -> string -> int\n\
end\n";

/// The same text, which is that of the definitions, byte for byte.
pub fn text() -> &'static str
    ensures { result.now ≡ prelude_text }
{
    PRELUDE
}
